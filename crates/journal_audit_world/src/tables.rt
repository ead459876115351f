//! Frames that hold tables of page tables.

ghost use Rattle.std.specs.Prelude.{◌≡◌, ◌==◌};
ghost use Rattle.iofd_words.specs.Tables.{are_rising, is_among, kept_tables};

use iofd_words::{FrameNo, TableFrame};
use std::alloc::Allocator;

/// Whether the frame is one of these.
pub fn is_among(frames: &[FrameNo], frame: FrameNo) -> bool
    ensures { result ≡ is_among frames.now frame }
{
    for other in frames {
        if other.0 == frame.0 {
            return true;
        }
    }
    false
}

/// Whether each frame is above those before it.
pub fn are_rising(frames: &[FrameNo]) -> bool
    ensures { result ≡ are_rising frames.now }
{
    // The least that may come next.
    let mut least: u64 = 0;
    for frame in frames {
        if u64::from(frame.0) < least {
            return false;
        }
        least = u64::from(frame.0) + 1;
    }
    true
}

/// The tables in these frames go.
pub fn give_back<A: Allocator>(tables: &mut Vec<TableFrame, A>, frames: &[FrameNo])
    ensures { tables.new.items ≡ kept_tables frames.now tables.old.items }
{
    tables.retain(move |table| !is_among(frames, table.frame));
}
