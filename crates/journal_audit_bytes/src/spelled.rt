//! A record as its bytes spell it.

ghost use Rattle.std.specs.Prelude.{◌≡◌};
ghost use Rattle.journal_audit_bytes.specs.declared.spelled.ReadError.TheVariants.{Memory};

use iofd_words::{Event, FrameList, PassNo};
use std::alloc::{AllocError, AllocFailed, Allocator, Global};

/// What a record's bytes say was answered. Its numbers may be any of their width, also such as no server answers.
#[derive(Clone, Copy)]
pub enum SpelledReply {
    Done,
    /// The id of an object.
    Id(u32),
    /// An address, in bytes.
    Iova(u64),
    /// How many bytes an UNMAP took away.
    Bytes(u64),
    /// An UNMAP that has to be called again: the errno.
    Pending(u8),
    /// The frame that a user page was given.
    Frame(u32),
    /// The frame at which a device's write was passed.
    Passed(u32),
    /// The reason of a fault.
    Fault(u8),
    /// The number of a refusal.
    Refused(u8),
    /// The words by which it is told which pages were written.
    Dirty([u64; 4]),
}

/// A well-spelled record.
#[derive(Drop)]
pub struct SpelledRecord<A: Allocator = Global> {
    pub pass: PassNo,
    pub event: Event<A>,
    pub reply: SpelledReply,
    pub taken: FrameList<A>,
    pub given: FrameList<A>,
}

/// Why no record was read.
#[derive(Clone, Copy)]
pub enum ReadError {
    /// The bytes begin with no record.
    Torn,
    /// There was no memory for its lists.
    Memory,
}

impl From<AllocError> for ReadError {
    ghost from_gives = { λ _ e. e ≡ Memory };

    fn from(_error: AllocError) -> ReadError {
        ReadError::Memory
    }
}

impl<T: Drop> From<AllocFailed<T>> for ReadError {
    ghost from_gives = { λ _ e. e ≡ Memory };

    fn from(_failed: AllocFailed<T>) -> ReadError {
        ReadError::Memory
    }
}
