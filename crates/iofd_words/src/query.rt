//! Questions that change nothing, and their answers.

use crate::burst::Burst;
use crate::event::DirtyRequest;
use crate::fault::Fault;
use crate::flags::Rights;
use crate::numbers::{DeviceNo, FileNo, FrameNo, Iova, ObjId, UserNo};
use crate::refusal::Refusal;

/// What a device's page is translated to: the frame at which accesses pass, and the rights of the area.
#[derive(Clone, Copy, PartialEq, Eq)]
pub struct Translation {
    pub frame: FrameNo,
    pub rights: Rights,
}

/// A question about the world. It changes nothing and isn't recorded.
#[derive(Clone, Copy)]
pub enum Query {
    /// A device reads `len` bytes.
    DeviceRead {
        device: DeviceNo,
        iova: Iova,
        len: u8,
    },
    /// A user reads `len` bytes of its own memory.
    UserRead {
        user: UserNo,
        va: u64,
        len: u8,
    },
    /// An access object of a file reads `len` bytes at an address that one of its pins covers.
    AccessRead {
        file: FileNo,
        access: ObjId,
        iova: Iova,
        len: u8,
    },
    /// How many frames of the pool are free.
    FreeFrames,
    /// How many pinned pages a user has.
    Held(UserNo),
    /// By which hardware page table a device translates.
    AttachedTo(DeviceNo),
    /// How many turns a device has had: how often it was attached, detached or flushed, refused or not. As long as the
    /// number is the same, translations that are kept for the device are good.
    Turns(DeviceNo),
    /// What a device's page at an address is translated to: by a live area of the address space by which it translates.
    WalkFor {
        device: DeviceNo,
        iova: Iova,
    },
    /// A device reads `len` bytes at a frame that was kept for it. It has to be one at which the read may pass now.
    CachedRead {
        device: DeviceNo,
        iova: Iova,
        len: u8,
        frame: FrameNo,
    },
    /// DIRTY_REPORT that doesn't clear: which pages of a span were written through a page table of the file.
    Dirty {
        file: FileNo,
        request: DirtyRequest,
    },
}

/// The answer to a question.
#[derive(Clone, Copy, PartialEq, Eq)]
pub enum Answer {
    /// The bytes that were read.
    Read(Burst),
    /// How many there are.
    Count(u64),
    /// The id of the hardware page table, in the file that the device is bound to; None where it isn't attached.
    Attached(Option<ObjId>),
    /// What the page is translated to; None where no live area maps it for the device.
    Walk(Option<Translation>),
    /// The access was denied.
    Fault(Fault),
    /// Which pages of a span were written: bit k of word j is its page 64 * j + k, counted from 0.
    Dirty([u64; 4]),
    /// The question was refused.
    Refused(Refusal),
}
