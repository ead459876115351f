//! Where an address leads.

use iofd_words::{FrameNo, Rights};

/// What a walk from the root meets (VT-d, "Second-Stage Translation").
#[derive(Clone, Copy, PartialEq, Eq)]
pub enum Walk {
    /// The page is mapped to this frame. The rights are the bits that the entries of all levels have in common.
    Hit { frame: FrameNo, rights: Rights },
    /// The address is at or above the end of the table's width.
    Beyond,
    /// No page is mapped there.
    None,
}
