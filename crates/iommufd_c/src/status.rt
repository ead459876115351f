//! The status of a call: 0, an errno below 0, or that it has to be made again.

ghost use Rattle.std.specs.Prelude.{◌≡◌, neg_ℤ, pos};
ghost use Rattle.iommufd_c.specs.Statuses as spec;

use crate::handle::{Access, GiveError, OpenError};
use iofd_words::{Answer, CallError, Errno, NoMemory, Reply, Span, Translation};
use shared_iommufd::{ConfigError, IoctlAnswer, JournalError, NotNow, PortCause, Stamp, TryError};

pub(crate) const DONE: i32 = 0;

/// It can't be served now, and did nothing. No errno has this number.
pub(crate) const NOT_NOW: i32 = -4096;

pub(crate) const EBADF: i32 = -9;

pub(crate) const ENOMEM: i32 = -12;

pub(crate) const EFAULT: i32 = -14;

pub(crate) const EBUSY: i32 = -16;

pub(crate) const EINVAL: i32 = -22;

pub(crate) const ENFILE: i32 = -23;

// The error as a status.
fn error_status(errno: Errno) -> i32
    ensures { result ≡ spec.error_status errno }
{
    -i32::from(errno.number())
}

// The status of an event that has this reply.
fn reply_status(reply: &Reply) -> i32
    ensures { result ≡ spec.reply_status reply.now }
{
    match *reply {
        Reply::Pending(errno) => error_status(errno),
        Reply::Refused(refusal) => error_status(refusal.errno()),
        Reply::Fault(_) => EFAULT,
        _ => DONE,
    }
}

/// The status of an event's call.
pub(crate) fn call_status(told: &Option<Result<Stamp, TryError<NoMemory>>>) -> i32
    ensures { result ≡ spec.call_status told.now }
{
    match told {
        Some(Ok(stamp)) => reply_status(&stamp.reply),
        Some(Err(TryError::Call(_))) => ENOMEM,
        Some(Err(TryError::NotNow(_))) => NOT_NOW,
        None => EBADF,
    }
}

/// The status of a question.
pub(crate) fn look_status(told: &Option<Result<Answer, NotNow>>) -> i32
    ensures { result ≡ spec.look_status told.now }
{
    match told {
        Some(Ok(Answer::Refused(refusal))) => error_status(refusal.errno()),
        Some(Ok(Answer::Fault(_))) => EFAULT,
        Some(Ok(_)) => DONE,
        Some(Err(_)) => NOT_NOW,
        None => EBADF,
    }
}

/// The status of the question for notices.
pub(crate) fn notices_status(told: &Option<Result<Vec<Span>, TryError<CallError>>>) -> i32
    ensures { result ≡ spec.notices_status told.now }
{
    match told {
        Some(Ok(_)) => DONE,
        Some(Err(TryError::Call(CallError::Refused(refusal)))) => error_status(refusal.errno()),
        Some(Err(TryError::Call(CallError::Memory(_)))) => ENOMEM,
        Some(Err(TryError::NotNow(_))) => NOT_NOW,
        None => EBADF,
    }
}

/// The status of the question for the journal.
pub(crate) fn journal_status(told: &Option<Result<Vec<u8>, TryError<JournalError>>>) -> i32
    ensures { result ≡ spec.journal_status told.now }
{
    match told {
        Some(Ok(_)) => DONE,
        Some(Err(TryError::Call(JournalError::Unspelt { .. }))) => EINVAL,
        Some(Err(TryError::Call(JournalError::NoMemory))) => ENOMEM,
        Some(Err(TryError::NotNow(_))) => NOT_NOW,
        None => EBADF,
    }
}

/// The status of a call of ioctl.
pub(crate) fn ioctl_status(told: &Option<Result<IoctlAnswer, TryError<NoMemory>>>) -> i32
    ensures { result ≡ spec.ioctl_status told.now }
{
    match told {
        Some(Ok(answer)) => match answer.errno {
            Some(errno) => error_status(errno),
            None => DONE,
        },
        Some(Err(TryError::Call(_))) => ENOMEM,
        Some(Err(TryError::NotNow(_))) => NOT_NOW,
        None => EBADF,
    }
}

/// The status of a port's read or write.
pub(crate) fn access_status(access: &Option<Access>) -> i32
    ensures { result ≡ spec.access_status access.now }
{
    let Some(access) = access else {
        return EBADF;
    };
    match &access.ended {
        Ok(()) => DONE,
        Err(error) => match error.cause {
            TryError::Call(PortCause::Refused(refusal)) => error_status(refusal.errno()),
            TryError::Call(PortCause::Fault(_)) => EFAULT,
            TryError::Call(PortCause::Memory(_)) => ENOMEM,
            TryError::NotNow(_) => NOT_NOW,
        },
    }
}

/// The status of the question what a page is translated to.
pub(crate) fn translate_status(told: &Option<Result<Option<Translation>, NotNow>>) -> i32
    ensures { result ≡ spec.translate_status told.now }
{
    match told {
        Some(Ok(Some(_))) => DONE,
        Some(Ok(None)) => EFAULT,
        Some(Err(_)) => NOT_NOW,
        None => EBADF,
    }
}

/// The status of opening a server.
pub(crate) fn open_status(opened: &Result<(), OpenError>) -> i32
    ensures { result ≡ spec.open_status opened.now }
{
    match opened {
        Ok(()) => DONE,
        Err(OpenError::Open) => EBUSY,
        Err(OpenError::Server(ConfigError::Memory)) => ENOMEM,
        Err(OpenError::Server(ConfigError::Lanes | ConfigError::Cache)) => EINVAL,
    }
}

/// Why another handle isn't opened.
pub(crate) fn give_status(error: GiveError) -> i32
    ensures { result ≡ spec.give_status error }
{
    match error {
        GiveError::Open => EBUSY,
        GiveError::NoCaller => EBADF,
        GiveError::NoneLeft => ENFILE,
        GiveError::Memory => ENOMEM,
    }
}
