//! What a command asks for, and what an ioctl answers to it.

ghost use Rattle.std.specs.Prelude.{◌≡◌};
ghost use Rattle.ioctl_codec.specs.Events.{asked, command_of, errno_of, ranges_errno};

use crate::command::{Command, RangesRequest};
use iofd_words::{DirtyRequest, Errno, Event, FileNo, Reply};
use std::alloc::{Allocator, Global};

/// What a command of a file asks for.
#[derive(Drop)]
pub enum Asked<A: Allocator = Global> {
    /// An event, which changes the server and makes a record.
    Event(Event<A>),
    /// The usable ranges of an address space: a question, which makes none.
    Ranges(RangesRequest),
    /// Which pages of a span were written, by a DIRTY_REPORT that doesn't clear: a question, which makes none. For its
    /// words `encode_reply_to` writes what is written back, as it does for those of a report that clears.
    Dirty(DirtyRequest),
}

impl<A: Allocator> Command<A> {
    /// What the command asks for where this file sends it.
    pub fn asked(self, file: FileNo) -> Asked<A>
        ensures { result ≡ asked file self }
    {
        match self {
            Command::Destroy(id) => Asked::Event(Event::Destroy(file, id)),
            Command::IoasAlloc => Asked::Event(Event::IoasAlloc(file)),
            Command::IoasAllowIovas(ioas, ranges) => {
                Asked::Event(Event::AllowIovas(file, ioas, ranges))
            }
            Command::IoasIovaRanges(request) => Asked::Ranges(request),
            Command::IoasMap(request) => Asked::Event(Event::Map(file, request)),
            Command::IoasCopy(request) => Asked::Event(Event::Copy(file, request)),
            Command::IoasUnmap(request) => Asked::Event(Event::Unmap(file, request)),
            Command::HwptAlloc(request) => Asked::Event(Event::HwptAlloc(file, request)),
            Command::DirtyEnable(hwpt, on) => Asked::Event(Event::DirtyEnable(file, hwpt, on)),
            Command::DirtyReport(request, true) => Asked::Event(Event::DirtyClear(file, request)),
            Command::DirtyReport(request, false) => Asked::Dirty(request),
        }
    }

    /// The command that asks for this event. None where no ioctl does, as for a device's write.
    pub fn of_event(event: Event<A>) -> Option<Command<A>>
        ensures { result ≡ command_of event }
    {
        match event {
            Event::IoasAlloc(_) => Some(Command::IoasAlloc),
            Event::AllowIovas(_, ioas, ranges) => Some(Command::IoasAllowIovas(ioas, ranges)),
            Event::Map(_, request) => Some(Command::IoasMap(request)),
            Event::Copy(_, request) => Some(Command::IoasCopy(request)),
            Event::Unmap(_, request) => Some(Command::IoasUnmap(request)),
            Event::HwptAlloc(_, request) => Some(Command::HwptAlloc(request)),
            Event::Destroy(_, id) => Some(Command::Destroy(id)),
            Event::DirtyEnable(_, hwpt, on) => Some(Command::DirtyEnable(hwpt, on)),
            Event::DirtyClear(_, request) => Some(Command::DirtyReport(request, true)),
            _ => None,
        }
    }
}

/// The error that an ioctl answers where its event has this reply. None where it succeeds; then what is written back is
/// `encode_reply`'s.
pub fn errno_of(reply: &Reply) -> Option<Errno>
    ensures { result ≡ errno_of reply.now }
{
    match *reply {
        Reply::Pending(errno) => Some(errno),
        Reply::Refused(refusal) => Some(refusal.errno()),
        _ => None,
    }
}

/// The error that an IOAS_IOVA_RANGES answers where there are so many usable ranges: EMSGSIZE where they are more than
/// the request has places for. None where it succeeds. What is written back is `encode_ranges`' in both cases.
pub fn ranges_errno(request: RangesRequest, count: usize) -> Option<Errno>
    ensures { result ≡ ranges_errno request count }
{
    if count > request.places as usize {
        return Some(Errno::EMSGSIZE);
    }
    None
}
