//! What a call tells beside its status.

ghost use Rattle.std.specs.Prelude.{◌≡◌};
ghost use Rattle.iommufd_c.specs.Outcomes as spec;

use crate::handle::Access;
use iofd_words::{Answer, CallError, NoMemory, Reply, Span};
use shared_iommufd::{NotNow, PortCause, Stamp, TryError};

/// What a call tells beside its status (`struct defnulk_outcome`).
#[repr(C)]
#[derive(Clone, Copy)]
pub struct Outcome {
    /// The place of the last record that it made, among all records, if it made one.
    pub at: u64,
    /// The number that it answers.
    pub value: u64,
    /// Whether it made a record: 1 or 0.
    pub made: u32,
    /// Why it was refused, by the number of the cause; or 0.
    pub cause: u16,
    /// Why an access was denied, by the number of the reason; or 0.
    pub fault: u16,
}

pub(crate) const NOTHING: Outcome = Outcome {
    at: 0,
    value: 0,
    made: 0,
    cause: 0,
    fault: 0,
};

// What the reply of the record at this place tells.
fn reply_outcome(at: u64, reply: &Reply) -> Outcome
    ensures { result ≡ spec.reply_outcome at reply.now }
{
    let made = Outcome {
        at,
        made: 1,
        ..NOTHING
    };
    match *reply {
        Reply::Done | Reply::Pending(_) | Reply::Dirty(_) => made,
        Reply::Id(id) => Outcome {
            value: u64::from(id.0),
            ..made
        },
        Reply::Iova(iova) => Outcome {
            value: iova.0,
            ..made
        },
        Reply::Bytes(count) => Outcome {
            value: count,
            ..made
        },
        Reply::Frame(frame) | Reply::Passed(frame) => Outcome {
            value: u64::from(frame.0),
            ..made
        },
        Reply::Fault(fault) => Outcome {
            fault: u16::from(fault.reason.number()),
            ..made
        },
        Reply::Refused(refusal) => Outcome {
            cause: u16::from(refusal.number()),
            ..made
        },
    }
}

/// What an event's call tells.
pub(crate) fn call_outcome(told: &Option<Result<Stamp, TryError<NoMemory>>>) -> Outcome
    ensures { result ≡ spec.call_outcome told.now }
{
    match told {
        Some(Ok(stamp)) => reply_outcome(stamp.at, &stamp.reply),
        Some(Err(_)) | None => NOTHING,
    }
}

/// What a question tells: a number, or how many bytes were read, or why none.
pub(crate) fn look_outcome(told: &Option<Result<Answer, NotNow>>) -> Outcome
    ensures { result ≡ spec.look_outcome told.now }
{
    match told {
        Some(Ok(Answer::Count(count))) => Outcome {
            value: *count,
            ..NOTHING
        },
        Some(Ok(Answer::Read(bytes))) => Outcome {
            value: bytes.as_slice().len() as u64,
            ..NOTHING
        },
        Some(Ok(Answer::Fault(fault))) => Outcome {
            fault: u16::from(fault.reason.number()),
            ..NOTHING
        },
        Some(Ok(Answer::Refused(refusal))) => Outcome {
            cause: u16::from(refusal.number()),
            ..NOTHING
        },
        Some(Ok(Answer::Attached(_) | Answer::Walk(_) | Answer::Dirty(_))) | Some(Err(_)) | None =>
            { NOTHING }
    }
}

/// What the question for notices tells: how many there are, or why none.
pub(crate) fn notices_outcome(told: &Option<Result<Vec<Span>, TryError<CallError>>>) -> Outcome
    ensures { result ≡ spec.notices_outcome told.now }
{
    match told {
        Some(Ok(spans)) => Outcome {
            value: spans.len() as u64,
            ..NOTHING
        },
        Some(Err(TryError::Call(CallError::Refused(refusal)))) => Outcome {
            cause: u16::from(refusal.number()),
            ..NOTHING
        },
        Some(Err(TryError::Call(CallError::Memory(_)) | TryError::NotNow(_))) | None => NOTHING,
    }
}

// Why the piece at which an access ended didn't pass, beside what the access tells.
fn denied(told: Outcome, cause: &TryError<PortCause>) -> Outcome
    ensures { result ≡ spec.denied told cause.now }
{
    match cause {
        TryError::Call(PortCause::Refused(refusal)) => Outcome {
            cause: u16::from(refusal.number()),
            ..told
        },
        TryError::Call(PortCause::Fault(fault)) => Outcome {
            fault: u16::from(fault.reason.number()),
            ..told
        },
        TryError::Call(PortCause::Memory(_)) | TryError::NotNow(_) => told,
    }
}

/// What a read or a write of so many bytes tells: how many passed, and why no more.
pub(crate) fn access_outcome(len: usize, access: &Option<Access>) -> Outcome
    ensures { result ≡ spec.access_outcome len access.now }
{
    let Some(access) = access else {
        return NOTHING;
    };
    let told = match access.last {
        Some(at) => Outcome {
            at,
            made: 1,
            ..NOTHING
        },
        None => NOTHING,
    };
    match &access.ended {
        Ok(()) => Outcome {
            value: len as u64,
            ..told
        },
        Err(error) => denied(
            Outcome {
                value: error.done as u64,
                ..told
            },
            &error.cause,
        ),
    }
}
