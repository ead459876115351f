//! A pin that is held.

use iofd_words::{FileNo, ObjId, Span};

/// A pin that an access object holds: whole pages of the address space to which it is attached, for writes too where
/// `write` is true.
#[derive(Clone, Copy)]
pub struct HeldPin {
    pub file: FileNo,
    /// The access object.
    pub access: ObjId,
    /// The address space.
    pub ioas: ObjId,
    pub span: Span,
    pub write: bool,
}
