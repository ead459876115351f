//! What a device's port may be told.

use iofd_words::ObjId;

/// A device's turn, by which it has to forget what it had cached.
#[derive(Clone, Copy)]
pub enum Turn {
    /// It has forgotten what it had cached.
    Flush,
    /// It is attached to the address space or the hardware page table of this id.
    Attach(ObjId),
    /// Its attachment ends.
    Detach,
}
