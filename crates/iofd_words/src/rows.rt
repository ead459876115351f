//! The rows of which the world is made. The definitions, the server and the auditor share them.

use crate::device_set::DeviceSet;
use crate::flags::Rights;
use crate::numbers::{DeviceNo, FileNo, FrameNo, Iova, ObjId, UserNo};
use crate::span::Span;
use crate::width::Width;

/// What an object is.
#[derive(Clone, Copy, PartialEq, Eq)]
pub enum ObjectKind {
    /// An I/O address space.
    Ioas,
    /// A hardware page table over an address space; an automatic one goes with its last device.
    Hwpt {
        ioas: ObjId,
        width: Width,
        automatic: bool,
    },
    /// A bound device.
    Device(DeviceNo),
    /// An access object, for the reads and writes of a driver in user space; attached to this address space, or to
    /// none.
    Access {
        ioas: Option<ObjId>,
    },
}

/// An object of a file. Ids are unique in a file.
#[derive(Clone, Copy)]
pub struct Object {
    pub file: FileNo,
    pub id: ObjId,
    pub kind: ObjectKind,
}

/// Pages of a user that a MAP made ready for devices. Its number is the position of that MAP's record.
#[derive(Clone, Copy)]
pub struct MemoryObject {
    pub number: u64,
    pub user: UserNo,
    /// The user address of its first page.
    pub va: u64,
    /// How many pages it has.
    pub count: u64,
    pub writable: bool,
}

/// Whether an area is mapped, or on its way out.
#[derive(Drop)]
pub enum Phase {
    Live,
    /// An UNMAP was called. These devices still have to flush; of the calls that waited so many are counted, at most
    /// 100.
    Leaving { owed: DeviceSet, tries: u8 },
}

/// A span of an address space that is mapped: page `i` of the memory object lies `4096 * i` after the
/// span's first address.
#[derive(Drop)]
pub struct Area {
    pub file: FileNo,
    pub ioas: ObjId,
    pub span: Span,
    /// The number of its memory object.
    pub memory: u64,
    pub rights: Rights,
    pub phase: Phase,
}

/// A page in a user's memory: the page at `4096 * page` is this frame.
#[derive(Clone, Copy)]
pub struct UserPage {
    pub user: UserNo,
    pub page: u64,
    pub frame: FrameNo,
}

/// A page of a memory object that devices may reach, and the frame that it had when it was pinned.
#[derive(Clone, Copy)]
pub struct Pin {
    /// The number of its memory object.
    pub memory: u64,
    /// Which of its pages, from 0.
    pub index: u64,
    pub frame: FrameNo,
}

/// Whole pages of an address space that an access object has pinned, for writes too where `write` is true. Equal ones
/// may stand side by side.
#[derive(Clone, Copy)]
pub struct AccessPin {
    pub file: FileNo,
    /// The access object.
    pub access: ObjId,
    pub span: Span,
    pub write: bool,
}

/// A frame of the pool that holds a table of a hardware page table.
#[derive(Clone, Copy)]
pub struct TableFrame {
    pub file: FileNo,
    pub hwpt: ObjId,
    /// 1 where its entries name pages, and one more a level up to the root.
    pub level: u8,
    /// The first address that goes through it.
    pub first: Iova,
    pub frame: FrameNo,
}

/// A device that translates by a hardware page table of its file.
#[derive(Clone, Copy)]
pub struct Attachment {
    pub device: DeviceNo,
    pub file: FileNo,
    pub hwpt: ObjId,
}
