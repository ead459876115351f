//! What the lines of a script say.

use crate::access_bytes::AccessBytes;
use crate::hex_bytes::HexBytes;
use crate::span_texts::SpanTexts;
use iofd_words::{DeviceNo, FileNo, Iova, ObjId, PinRequest, SourceId, UserNo, Width};

/// A line of the head.
#[derive(Drop)]
pub enum HeadLine<'a> {
    /// The pool has so many frames.
    Pool(u32),
    /// The next user may pin so many pages.
    User(u64),
    /// The next file is this user's.
    File(UserNo),
    /// The next device has this source id, this address width, the x86 mark or not, and these reserved spans.
    Device(SourceId, Width, bool, SpanTexts<'a>),
    /// The steps begin.
    Begin,
}

/// A step.
#[derive(Drop)]
pub enum Step<'a> {
    /// A command of a file, by its number (0x3B80 and on) and its bytes.
    Ioctl(FileNo, u32, HexBytes<'a>),
    /// Closes a file.
    Close(FileNo),
    /// Gives a user a page at this user address.
    UserMap(UserNo, u64),
    /// Takes the page at this user address out of a user's memory.
    UserUnmap(UserNo, u64),
    /// A user reads so many bytes of its memory, 1 to 64.
    UserRead(UserNo, u64, u8),
    /// A user writes these bytes to its memory.
    UserWrite(UserNo, u64, AccessBytes<'a>),
    /// Binds a device to a file.
    Bind(FileNo, DeviceNo),
    /// Takes the device of this id away from its file.
    Unbind(FileNo, ObjId),
    /// Attaches a device to the address space or the hardware page table of this id.
    Attach(DeviceNo, ObjId),
    /// Ends a device's attachment.
    Detach(DeviceNo),
    /// A device forgets what it has cached.
    Flush(DeviceNo),
    /// A device reads so many bytes, 1 to 64.
    DeviceRead(DeviceNo, Iova, u8),
    /// A device writes these bytes.
    DeviceWrite(DeviceNo, Iova, AccessBytes<'a>),
    /// Makes an access object of a file, which is attached to nothing.
    AccessCreate(FileNo),
    /// Attaches the access object of the first id to the address space of the second.
    AccessAttach(FileNo, ObjId, ObjId),
    /// Ends the attachment of the access object of this id.
    AccessDetach(FileNo, ObjId),
    /// The access object of this id pins pages.
    AccessPin(FileNo, ObjId, PinRequest),
    /// The access object of this id gives one of its pins of just these pages up.
    AccessUnpin(FileNo, ObjId, PinRequest),
    /// The access object of this id reads so many bytes, 1 to 64.
    AccessRead(FileNo, ObjId, Iova, u8),
    /// The access object of this id writes these bytes.
    AccessWrite(FileNo, ObjId, Iova, AccessBytes<'a>),
    /// Which ranges the access object of this id is asked to let go of.
    Notices(FileNo, ObjId),
    /// How many frames are free.
    FreeFrames,
    /// How many pinned pages a user has.
    Held(UserNo),
}

/// A line of a script.
#[derive(Drop)]
pub enum Line<'a> {
    /// An empty line, or one that begins with `#`: it says nothing.
    Skipped,
    /// A line of the head.
    Head(HeadLine<'a>),
    /// A step.
    Step(Step<'a>),
}
