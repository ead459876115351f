//! The numbers that name things. Each is a type of its own, so that one can't be passed for another.

/// The bytes of a page, and of a frame (VT-d, "Second-Stage Translation": 4-KByte pages).
pub const PAGE_SIZE: u64 = 4096;

/// The end of the users' addresses, in bytes: they are below 2^48.
pub const USER_END: u64 = 1 << 48;

/// An address in a device's I/O address space, in bytes.
#[derive(Clone, Copy, PartialEq, Eq, Debug)]
pub struct Iova(pub u64);

/// A frame of the pool, counted from 0. Its bytes begin at `4096 * number` of the pool.
#[derive(Clone, Copy, PartialEq, Eq, Debug)]
pub struct FrameNo(pub u32);

/// An open iommufd file, counted from 1.
#[derive(Clone, Copy, PartialEq, Eq, Debug)]
pub struct FileNo(pub u16);

/// A user whose memory is mapped and whose pinned pages are counted, from 1.
#[derive(Clone, Copy, PartialEq, Eq, Debug)]
pub struct UserNo(pub u16);

/// A device behind the IOMMU, counted from 1.
#[derive(Clone, Copy, PartialEq, Eq, Debug)]
pub struct DeviceNo(pub u16);

/// The id of an object in the table of its file (`__u32 id` in the uapi header). Ids that are given
/// out are 1 to 2^31 - 1; those that a command names may be any number.
#[derive(Clone, Copy, PartialEq, Eq, Debug)]
pub struct ObjId(pub u32);

/// A caller of the server, counted from 0.
#[derive(Clone, Copy, PartialEq, Eq, Debug)]
pub struct PassNo(pub u16);

/// The id by which the IOMMU knows a device: bus in bits 15:8, device in 7:3, function in 2:0
/// (VT-d, "Source Identifier").
#[derive(Clone, Copy, PartialEq, Eq, Debug)]
pub struct SourceId(pub u16);
