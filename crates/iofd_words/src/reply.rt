//! What the server answers to an event.

use crate::fault::Fault;
use crate::numbers::{FrameNo, Iova, ObjId};
use crate::refusal::{Errno, Refusal};

/// The answer to an event.
#[derive(Clone, Copy, PartialEq, Eq, Debug)]
pub enum Reply {
    Done,
    /// The id of a new object; for Attach, of the hardware page table used.
    Id(ObjId),
    /// Where an area was mapped.
    Iova(Iova),
    /// How many bytes an UNMAP took away.
    Bytes(u64),
    /// An UNMAP that has to be called again: EAGAIN, or EDEADLOCK after many tries.
    Pending(Errno),
    /// The frame that a user page was given.
    Frame(FrameNo),
    /// A device's write that was passed at this frame.
    Passed(FrameNo),
    /// A device's access that was denied.
    Fault(Fault),
    /// Which pages of a span were written: bit k of word j is its page 64 * j + k, counted from 0.
    Dirty([u64; 4]),
    /// A refused event, which changed nothing.
    Refused(Refusal),
}
