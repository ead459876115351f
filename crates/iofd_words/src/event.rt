//! The events that change the world, one for each command and step.

ghost use Rattle.std.specs.Prelude.{◌≡◌, ◌<◌, IfOk, OnErr, length};
ghost use Rattle.iofd_words.specs.Allowed.{ranges_of};

use crate::burst::Burst;
use crate::flags::MapFlags;
use crate::numbers::{DeviceNo, FileNo, FrameNo, Iova, ObjId, UserNo};
use crate::range::RangeList;
use crate::refusal::NoMemory;
use std::alloc::{Allocator, Global};

/// What IOAS_MAP asks for (uapi header, `struct iommu_ioas_map`). Lengths and addresses are in bytes.
#[derive(Clone, Copy)]
pub struct MapRequest {
    pub flags: MapFlags,
    pub ioas: ObjId,
    pub user_va: u64,
    pub length: u64,
    pub iova: Iova,
}

/// What IOAS_COPY asks for (uapi header, `struct iommu_ioas_copy`): the memory mapped at exactly the source range is
/// mapped in the target as well. Lengths and addresses are in bytes.
#[derive(Clone, Copy)]
pub struct CopyRequest {
    pub flags: MapFlags,
    pub dst_ioas: ObjId,
    pub src_ioas: ObjId,
    pub length: u64,
    pub dst_iova: Iova,
    pub src_iova: Iova,
}

/// What IOAS_UNMAP asks for (uapi header, `struct iommu_ioas_unmap`). Iova 0 with a length of
/// 2^64 - 1 names every address.
#[derive(Clone, Copy)]
pub struct UnmapRequest {
    pub ioas: ObjId,
    pub iova: Iova,
    pub length: u64,
}

/// What HWPT_ALLOC asks for (uapi header, `struct iommu_hwpt_alloc`): a page table of the device's width over an
/// address space, both by their ids in the file.
#[derive(Clone, Copy)]
pub struct HwptRequest {
    pub device: ObjId,
    pub ioas: ObjId,
}

/// Which pages of its address space an access object pins (`iommufd.h` of the kernel, `iommufd_access_pin_pages`). The
/// length and the address are in bytes.
#[derive(Clone, Copy)]
pub struct PinRequest {
    pub iova: Iova,
    pub length: u64,
    /// Whether they are for writes too, and not for reads alone.
    pub write: bool,
}

/// Which pages of an address space are asked for by DIRTY_REPORT (this project's own command): those of a span that
/// were written through the page table of this id. The length and the address are in bytes.
#[derive(Clone, Copy)]
pub struct DirtyRequest {
    pub hwpt: ObjId,
    pub iova: Iova,
    pub length: u64,
}

/// A step that is recorded. One with a list owns it.
#[derive(Drop)]
pub enum Event<A: Allocator = Global> {
    /// IOAS_ALLOC: makes an I/O address space.
    IoasAlloc(FileNo),
    /// IOAS_ALLOW_IOVAS: the ranges to which addresses that the server chooses are bounded, in place of those before.
    AllowIovas(FileNo, ObjId, RangeList<A>),
    /// IOAS_MAP: maps user memory at an address.
    Map(FileNo, MapRequest),
    /// IOAS_COPY: maps the memory of an area a second time.
    Copy(FileNo, CopyRequest),
    /// IOAS_UNMAP: takes areas away.
    Unmap(FileNo, UnmapRequest),
    /// HWPT_ALLOC: makes a hardware page table.
    HwptAlloc(FileNo, HwptRequest),
    /// DESTROY: takes an object away.
    Destroy(FileNo, ObjId),
    /// Closes a file.
    Close(FileNo),
    /// Gives a user a page at this user address.
    UserMap(UserNo, u64),
    /// Takes the page at this user address out of a user's memory.
    UserUnmap(UserNo, u64),
    /// A user writes its own memory.
    UserWrite(UserNo, u64, Burst),
    /// Binds a device to a file.
    Bind(FileNo, DeviceNo),
    /// Takes the device of this id away from its file.
    Unbind(FileNo, ObjId),
    /// Attaches a device to the address space or the hardware page table of this id.
    Attach(DeviceNo, ObjId),
    /// Ends a device's attachment.
    Detach(DeviceNo),
    /// A device has forgotten what it had cached.
    Flush(DeviceNo),
    /// A device writes memory.
    DeviceWrite(DeviceNo, Iova, Burst),
    /// Makes an access object, which is attached to nothing.
    AccessCreate(FileNo),
    /// Attaches the access object of the first id to the address space of the second.
    AccessAttach(FileNo, ObjId, ObjId),
    /// Ends the attachment of the access object of this id.
    AccessDetach(FileNo, ObjId),
    /// Pins pages of the address space to which the access object of this id is attached.
    AccessPin(FileNo, ObjId, PinRequest),
    /// Takes one of its pins of just these pages away.
    AccessUnpin(FileNo, ObjId, PinRequest),
    /// Writes memory at an address that one of its pins covers.
    AccessWrite(FileNo, ObjId, Iova, Burst),
    /// DIRTY_ENABLE: the pages that devices write through the page table of this id are tracked from now on, or no
    /// more. None is marked then.
    DirtyEnable(FileNo, ObjId, bool),
    /// DIRTY_REPORT that clears: tells which pages of a span were written, and takes their marks away.
    DirtyClear(FileNo, DirtyRequest),
}

impl<A: Allocator + Copy> Event<A> {
    /// The same event, with its list in memory of this allocator. It fails only where memory does; an event without a
    /// list, or with an empty one, needs none.
    pub fn copied(&self, alloc: A) -> Result<Event<A>, NoMemory>
        ensures ok { IfOk result (λ event. event ≡ self.now) }
        ensures memory { OnErr result (0 < length (ranges_of self.now)) }
    {
        Ok(match self {
            Event::IoasAlloc(file) => Event::IoasAlloc(*file),
            Event::AllowIovas(file, ioas, ranges) => {
                Event::AllowIovas(*file, *ioas, ranges.copied(alloc)?)
            }
            Event::Map(file, request) => Event::Map(*file, *request),
            Event::Copy(file, request) => Event::Copy(*file, *request),
            Event::Unmap(file, request) => Event::Unmap(*file, *request),
            Event::HwptAlloc(file, request) => Event::HwptAlloc(*file, *request),
            Event::Destroy(file, id) => Event::Destroy(*file, *id),
            Event::Close(file) => Event::Close(*file),
            Event::UserMap(user, va) => Event::UserMap(*user, *va),
            Event::UserUnmap(user, va) => Event::UserUnmap(*user, *va),
            Event::UserWrite(user, va, bytes) => Event::UserWrite(*user, *va, *bytes),
            Event::Bind(file, device) => Event::Bind(*file, *device),
            Event::Unbind(file, id) => Event::Unbind(*file, *id),
            Event::Attach(device, pt_id) => Event::Attach(*device, *pt_id),
            Event::Detach(device) => Event::Detach(*device),
            Event::Flush(device) => Event::Flush(*device),
            Event::DeviceWrite(device, iova, bytes) => Event::DeviceWrite(*device, *iova, *bytes),
            Event::AccessCreate(file) => Event::AccessCreate(*file),
            Event::AccessAttach(file, id, ioas) => Event::AccessAttach(*file, *id, *ioas),
            Event::AccessDetach(file, id) => Event::AccessDetach(*file, *id),
            Event::AccessPin(file, id, request) => Event::AccessPin(*file, *id, *request),
            Event::AccessUnpin(file, id, request) => Event::AccessUnpin(*file, *id, *request),
            Event::AccessWrite(file, id, iova, bytes) => {
                Event::AccessWrite(*file, *id, *iova, *bytes)
            }
            Event::DirtyEnable(file, hwpt, on) => Event::DirtyEnable(*file, *hwpt, *on),
            Event::DirtyClear(file, request) => Event::DirtyClear(*file, *request),
        })
    }
}

/// An event to apply, and for a DeviceWrite the frame of a cached translation, if it comes from one.
#[derive(Drop)]
pub struct Act<A: Allocator = Global> {
    pub event: Event<A>,
    pub via: Option<FrameNo>,
}
