//! Replies by what a record tells of them.

ghost use Rattle.std.specs.Prelude.{◌≡◌, option_map};
ghost use Rattle.journal_audit_bytes.specs.Replies.{cause_by, errno_by, fault_by, fault_of, reason_by, reply_of};

use crate::spelled::SpelledReply;
use iofd_words::{
    AccessKind, Cause, Config, Errno, Event, Fault, FaultReason, FrameNo, Iova, ObjId, PAGE_SIZE,
    Refusal, Reply,
};
use std::alloc::Allocator;

// The error of this number.
fn errno_by(number: u8) -> Option<Errno>
    ensures { result ≡ errno_by number }
{
    match number {
        1 => Some(Errno::EPERM),
        2 => Some(Errno::ENOENT),
        7 => Some(Errno::E2BIG),
        11 => Some(Errno::EAGAIN),
        12 => Some(Errno::ENOMEM),
        14 => Some(Errno::EFAULT),
        16 => Some(Errno::EBUSY),
        17 => Some(Errno::EEXIST),
        22 => Some(Errno::EINVAL),
        25 => Some(Errno::ENOTTY),
        28 => Some(Errno::ENOSPC),
        35 => Some(Errno::EDEADLOCK),
        75 => Some(Errno::EOVERFLOW),
        90 => Some(Errno::EMSGSIZE),
        95 => Some(Errno::EOPNOTSUPP),
        98 => Some(Errno::EADDRINUSE),
        _ => None,
    }
}

// The reason of a fault, by its number in the standard.
fn reason_by(number: u8) -> Option<FaultReason>
    ensures { result ≡ reason_by number }
{
    match number {
        2 => Some(FaultReason::NoContext),
        4 => Some(FaultReason::BeyondWidth),
        5 => Some(FaultReason::WriteDenied),
        6 => Some(FaultReason::ReadDenied),
        _ => None,
    }
}

// The cause of the refusal of this number.
fn cause_by(number: u8) -> Option<Cause>
    ensures { result ≡ cause_by number }
{
    match number {
        1 => Some(Cause::Number),
        2 => Some(Cause::Short),
        3 => Some(Cause::Tail),
        4 => Some(Cause::Unsupported),
        5 => Some(Cause::Array),
        6 => Some(Cause::Frames),
        7 => Some(Cause::Account),
        8 => Some(Cause::Absent),
        9 => Some(Cause::Overlap),
        10 => Some(Cause::Span),
        11 => Some(Cause::Id),
        12 => Some(Cause::InUse),
        13 => Some(Cause::Bound),
        14 => Some(Cause::Width),
        15 => Some(Cause::Narrow),
        16 => Some(Cause::Rights),
        17 => Some(Cause::Leaving),
        18 => Some(Cause::NotHeld),
        19 => Some(Cause::Sum),
        20 => Some(Cause::Align),
        21 => Some(Cause::NoRight),
        22 => Some(Cause::Reserved),
        23 => Some(Cause::Full),
        24 => Some(Cause::List),
        25 => Some(Cause::Places),
        26 => Some(Cause::Cross),
        27 => Some(Cause::InterruptRange),
        28 => Some(Cause::Unattached),
        29 => Some(Cause::Pending),
        30 => Some(Cause::Tracking),
        _ => None,
    }
}

/// The fault of this event for this reason. None where it has none: the event is no write of a device, or the device
/// isn't there.
pub fn fault_of<A: Allocator, B: Allocator>(
    config: &Config<A>,
    event: &Event<B>,
    reason: FaultReason,
) -> Option<Fault>
    ensures { result ≡ fault_of config.now event.now reason }
{
    match event {
        Event::DeviceWrite(device, iova, _) => match config.device(*device) {
            Some(device) => Some(Fault {
                page: iova.0 / PAGE_SIZE,
                source: device.source(),
                kind: AccessKind::Write,
                reason,
            }),
            None => None,
        },
        _ => None,
    }
}

// The fault whose reason has this number.
fn fault_by<A: Allocator, B: Allocator>(
    config: &Config<A>,
    event: &Event<B>,
    number: u8,
) -> Option<Fault>
    ensures { result ≡ fault_by config.now event.now number }
{
    match reason_by(number) {
        Some(reason) => fault_of(config, event, reason),
        None => None,
    }
}

/// The reply that a record tells of this event, in a journal of this configuration. None where it tells none: an errno,
/// a refusal or a reason of this number isn't there, or the event has no fault.
pub fn typed_reply<A: Allocator, B: Allocator>(
    config: &Config<A>,
    event: &Event<B>,
    spelled: SpelledReply,
) -> Option<Reply>
    ensures { result ≡ reply_of config.now event.now spelled }
{
    match spelled {
        SpelledReply::Done => Some(Reply::Done),
        SpelledReply::Id(id) => Some(Reply::Id(ObjId(id))),
        SpelledReply::Iova(iova) => Some(Reply::Iova(Iova(iova))),
        SpelledReply::Bytes(count) => Some(Reply::Bytes(count)),
        SpelledReply::Pending(errno) => errno_by(errno).map(Reply::Pending),
        SpelledReply::Frame(frame) => Some(Reply::Frame(FrameNo(frame))),
        SpelledReply::Passed(frame) => Some(Reply::Passed(FrameNo(frame))),
        SpelledReply::Fault(reason) => fault_by(config, event, reason).map(Reply::Fault),
        SpelledReply::Refused(number) => {
            cause_by(number).map(|cause| Reply::Refused(Refusal { cause }))
        }
        SpelledReply::Dirty(words) => Some(Reply::Dirty(words)),
    }
}
