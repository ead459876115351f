//! Commands, and why bytes are none.

ghost use Rattle.std.specs.Prelude.{◌≡◌, ◌==◌, ◌&&◌, ◌||◌, if◌then◌else◌, nat_lt, ◌^◌};
ghost use Rattle.std.specs.Prelude.{length, is_some, IfSome};
ghost use Rattle.std.specs.Int.RustNames.{bit_and};
ghost use Rattle.iofd_words.specs.Rights.{is_fixed};

use crate::structure::{
    DESTROY, DIRTY_ENABLE, DIRTY_REPORT, HWPT_ALLOC, IOAS_ALLOC, IOAS_ALLOW_IOVAS, IOAS_COPY,
    IOAS_IOVA_RANGES, IOAS_MAP, IOAS_UNMAP,
};
use iofd_words::{
    CopyRequest, DirtyRequest, HwptRequest, Iova, IovaRange, MapFlags, MapRequest, ObjId,
    RangeList, UnmapRequest,
};
use std::alloc::{Allocator, Global};

// FIXED_IOVA, WRITEABLE and READABLE.
pub const KNOWN_FLAGS: u32 = MapFlags::FIXED_IOVA.0 | MapFlags::WRITEABLE.0 | MapFlags::READABLE.0;

/// What IOAS_IOVA_RANGES asks for (uapi header, `struct iommu_ioas_iova_ranges`): the ranges of an address space, for
/// so many of which the caller has places.
#[derive(Clone, Copy)]
pub struct RangesRequest {
    pub ioas: ObjId,
    pub places: u32,
}

/// What a call of `ioctl` asks for: one structure each, of the uapi header `iommufd.h` or this project's own. One
/// with a list owns it.
#[derive(Drop)]
pub enum Command<A: Allocator = Global> {
    /// IOMMU_DESTROY: takes the object of this id away.
    Destroy(ObjId),
    /// IOMMU_IOAS_ALLOC: makes an I/O address space.
    IoasAlloc,
    /// IOMMU_IOAS_ALLOW_IOVAS: the ranges to which addresses that the server chooses are bounded, in place of those
    /// before.
    IoasAllowIovas(ObjId, RangeList<A>),
    /// IOMMU_IOAS_COPY: maps the memory of an area a second time, at the given address or at one that the server
    /// chooses.
    IoasCopy(CopyRequest),
    /// IOMMU_IOAS_IOVA_RANGES: asks in which ranges of addresses can be mapped.
    IoasIovaRanges(RangesRequest),
    /// IOMMU_IOAS_MAP: maps user memory at an address, the given one or one that the server chooses.
    IoasMap(MapRequest),
    /// IOMMU_IOAS_UNMAP: takes areas away.
    IoasUnmap(UnmapRequest),
    /// IOMMU_HWPT_ALLOC: makes a hardware page table.
    HwptAlloc(HwptRequest),
    /// DIRTY_ENABLE (this project's own): turns on, or off, that the pages that devices write through the page table of
    /// this id are tracked.
    DirtyEnable(ObjId, bool),
    /// DIRTY_REPORT (this project's own): asks which pages of a span were written, and takes their marks away where it
    /// clears.
    DirtyReport(DirtyRequest, bool),
}

impl<A: Allocator> Command<A> {
    ghost use Rattle.ioctl_codec.specs.Structures.{structure_of, is_spellable};

    /// The command's number (uapi header: `_IO(';', nr)`, 0x3B80 and on; this project's own from 0x3BF0 on).
    pub fn number(&self) -> u32
        ensures { result ≡ (structure_of self.now).number }
    {
        match self {
            Command::Destroy(_) => DESTROY,
            Command::IoasAlloc => IOAS_ALLOC,
            Command::IoasAllowIovas(_, _) => IOAS_ALLOW_IOVAS,
            Command::IoasCopy(_) => IOAS_COPY,
            Command::IoasIovaRanges(_) => IOAS_IOVA_RANGES,
            Command::IoasMap(_) => IOAS_MAP,
            Command::IoasUnmap(_) => IOAS_UNMAP,
            Command::HwptAlloc(_) => HWPT_ALLOC,
            Command::DirtyEnable(_, _) => DIRTY_ENABLE,
            Command::DirtyReport(_, _) => DIRTY_REPORT,
        }
    }

    /// Whether some bytes spell the command, so that `encode` may write it. It's so unless it's a MAP or a COPY with
    /// an unknown flag, or with an address to map at other than 0 that its flags don't fix, or has 2^32 ranges or more.
    pub fn is_spellable(&self) -> bool
        ensures { result ≡ is_spellable self.now }
    {
        match self {
            Command::IoasMap(map) => are_spellable(map.flags) && is_kept(map.flags, map.iova),
            Command::IoasCopy(copy) => {
                are_spellable(copy.flags) && is_kept(copy.flags, copy.dst_iova)
            }
            Command::IoasAllowIovas(_, ranges) => count_of(ranges.as_slice()).is_some(),
            Command::Destroy(_)
            | Command::IoasAlloc
            | Command::IoasIovaRanges(_)
            | Command::IoasUnmap(_)
            | Command::HwptAlloc(_)
            | Command::DirtyEnable(_, _)
            | Command::DirtyReport(_, _) => true,
        }
    }
}

/// Why bytes give no command: they spell none, by Number (1, ENOTTY), Short (2, EINVAL), Tail (3, E2BIG), Unsupported
/// (4, EOPNOTSUPP) or Array (5, EINVAL); or they spell a command with entries, and the memory for these was refused.
/// The name is kept for those who call this crate by it.
pub type DecodeError = iofd_words::CallError;

// How many ranges there are, if a structure's count can say it.
fn count_of(ranges: &[IovaRange]) -> Option<u32>
    ensures some { is_some result ≡ nat_lt (length ranges.now) (2 ^ 32) }
    ensures value { IfSome result (λ count. count ≡ length ranges.now) }
{
    u32::try_from(ranges.len()).ok()
}

// Whether a MAP or a COPY may have these flags: none but the known ones.
fn are_spellable(flags: MapFlags) -> bool
    ensures { result ≡ (bit_and flags.0 7 == flags.0) }
{
    flags.0 & KNOWN_FLAGS == flags.0
}

// Whether a MAP or a COPY with these flags keeps this address.
fn is_kept(flags: MapFlags, iova: Iova) -> bool
    ensures { result ≡ (is_fixed flags || iova.0 == 0) }
{
    flags.is_fixed() || iova.0 == 0
}

// The address that a MAP or a COPY keeps: one that the flags don't fix is ignored.
pub fn kept_iova(flags: MapFlags, iova: Iova) -> Iova
    ensures { result.0 ≡ (if is_fixed flags then iova.0 else 0) }
{
    if flags.is_fixed() {
        return iova;
    }
    Iova(0)
}
