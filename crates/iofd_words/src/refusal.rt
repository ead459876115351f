//! Refusals: the one table of their numbers, errnos and causes.

ghost use Rattle.std.specs.Prelude.{◌≡◌};
ghost use Rattle.iofd_words.specs.Refusal.{number_of, errno_of, errno_number};

use std::alloc::{AllocError, AllocFailed};

/// An error number of Linux (`errno-base.h`, `errno.h`).
#[derive(Clone, Copy, PartialEq, Eq, Debug)]
pub enum Errno {
    EPERM = 1,
    ENOENT = 2,
    E2BIG = 7,
    EAGAIN = 11,
    ENOMEM = 12,
    EFAULT = 14,
    EBUSY = 16,
    EEXIST = 17,
    EINVAL = 22,
    ENOTTY = 25,
    ENOSPC = 28,
    EDEADLOCK = 35,
    EOVERFLOW = 75,
    EMSGSIZE = 90,
    EOPNOTSUPP = 95,
    EADDRINUSE = 98,
}

impl Errno {
    /// Linux's number of the error.
    pub fn number(self) -> u8
        ensures { result ≡ errno_number self }
    {
        self as u8
    }
}

/// Why a command, a step or an access is refused. The number of a cause is its place in this list.
#[derive(Clone, Copy, PartialEq, Eq, Debug)]
pub enum Cause {
    /// The command's number isn't served.
    Number = 1,
    /// The structure, or the bytes given, are too short.
    Short = 2,
    /// The size is above 4096, or a byte past the known structure isn't zero.
    Tail = 3,
    /// An unknown flag bit, or a reserved field that isn't 0.
    Unsupported = 4,
    /// The wrong number of bytes after the structure.
    Array = 5,
    /// The pool has fewer free frames than the step needs.
    Frames = 6,
    /// The user's limit of pinned pages would be passed.
    Account = 7,
    /// A page isn't in the user's memory.
    Absent = 8,
    /// The span meets an area, or the user page is mapped already.
    Overlap = 9,
    /// No area, a gap, a cut area, or no exact match.
    Span = 10,
    /// A closed or unknown file, an unknown user or device, a device that isn't bound, an id that isn't
    /// this file's or is of another kind.
    Id = 11,
    /// Others still use the object.
    InUse = 12,
    /// Already bound or attached; a DESTROY of a device object.
    Bound = 13,
    /// The device and the hardware page table have different widths.
    Width = 14,
    /// An area or an allowed range would lie outside the usable ranges.
    Narrow = 15,
    /// A right that the area, the memory object or the pin doesn't have.
    Rights = 16,
    /// A pin in a leaving area.
    Leaving = 17,
    /// No such held pin.
    NotHeld = 18,
    /// Start plus length is above 2^64.
    Sum = 19,
    /// A length of 0; a length or an address that isn't a multiple of 4096; a user page at or above 2^48.
    Align = 20,
    /// Neither READABLE nor WRITEABLE.
    NoRight = 21,
    /// A fixed span outside the usable ranges.
    Reserved = 22,
    /// No room for a chosen address, or a limit reached.
    Full = 23,
    /// Allowed ranges that are empty or overlap.
    List = 24,
    /// Fewer places than ranges.
    Places = 25,
    /// An access of 0 or more than 64 bytes, or across a page.
    Cross = 26,
    /// An access of an x86 device to its interrupt range.
    InterruptRange = 27,
    /// The device or access isn't attached.
    Unattached = 28,
    /// The first hardware page table while an area is leaving.
    Pending = 29,
    /// A hardware page table whose written pages aren't tracked, or more than 256 pages at once.
    Tracking = 30,
}

impl Cause {
    /// The number of the refusal, 1 to 30.
    pub fn number(self) -> u8
        ensures { result ≡ number_of self }
    {
        self as u8
    }

    /// The error that a refusal for this cause answers.
    pub fn errno(self) -> Errno
        ensures { result ≡ errno_of self }
    {
        match self {
            Cause::Rights => Errno::EPERM,
            Cause::Span | Cause::Id | Cause::Unattached => Errno::ENOENT,
            Cause::Tail => Errno::E2BIG,
            Cause::Frames | Cause::Account => Errno::ENOMEM,
            Cause::Absent => Errno::EFAULT,
            Cause::InUse | Cause::Bound | Cause::Pending => Errno::EBUSY,
            Cause::Overlap => Errno::EEXIST,
            Cause::Number => Errno::ENOTTY,
            Cause::Full => Errno::ENOSPC,
            Cause::Sum => Errno::EOVERFLOW,
            Cause::Places => Errno::EMSGSIZE,
            Cause::Unsupported => Errno::EOPNOTSUPP,
            Cause::Narrow => Errno::EADDRINUSE,
            Cause::Short
            | Cause::Array
            | Cause::Width
            | Cause::Leaving
            | Cause::NotHeld
            | Cause::Align
            | Cause::NoRight
            | Cause::Reserved
            | Cause::List
            | Cause::Cross
            | Cause::InterruptRange
            | Cause::Tracking => Errno::EINVAL,
        }
    }
}

/// A refusal: its cause, which determines its number and its errno. It changes nothing.
#[derive(Clone, Copy, PartialEq, Eq, Debug)]
pub struct Refusal {
    pub cause: Cause,
}

impl Refusal {
    /// The number of the refusal, 1 to 30.
    pub fn number(self) -> u8
        ensures { result ≡ number_of self.cause }
    {
        self.cause.number()
    }

    /// The error that it answers.
    pub fn errno(self) -> Errno
        ensures { result ≡ errno_of self.cause }
    {
        self.cause.errno()
    }
}

/// Want of memory: a growth was really refused. It takes the place of whatever answer was due, changes
/// nothing, and isn't recorded.
#[derive(Clone, Copy, PartialEq, Eq, Debug)]
pub struct NoMemory;

impl From<AllocError> for NoMemory {
    fn from(_error: AllocError) -> NoMemory {
        NoMemory
    }
}

impl<T: Drop> From<AllocFailed<T>> for NoMemory {
    fn from(_failed: AllocFailed<T>) -> NoMemory {
        NoMemory
    }
}
