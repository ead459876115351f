//! Questions and ioctls of callers.

ghost use Rattle.std.specs.Prelude.{◌≡◌, false, min, length};
ghost use Rattle.guarded_core.specs.OfPort.{query_of_port};
ghost use Rattle.iommufd_c.specs.Exports.{AreNoticed, IsAsked, IsCarriedOut, IsJournalled, IsPeeked, IsServedBy};
ghost use Rattle.iommufd_c.specs.Exports.{back, journal_bytes, over, read_bytes, spans_told};

use crate::handle::{Handle, Ioctl, Journal, Look, Notices};
use crate::outcome::{Outcome, look_outcome, notices_outcome};
use crate::spans::{SpanRow, put_spans};
use crate::status::{EINVAL, ioctl_status, journal_status, look_status, notices_status};
use iofd_words::{Answer, CallError, FileNo, Iova, NoMemory, ObjId, Query, Span, UserNo};
use shared_iommufd::{IoctlAnswer, JournalError, NotNow, TryError};
use std::alloc::Global;

// The least room for what an ioctl writes back.
const LEAST_ROOM: usize = 64;

// Puts the bytes over the front of the buffer, as many as it has place for.
fn put_over(buffer: &mut [u8], bytes: &[u8])
    ensures { buffer.new ≡ over buffer.old bytes.now }
{
    let count = buffer.len().min(bytes.len());
    buffer[..count].copy_from_slice(&bytes[..count]);
}

// Asks a question by a caller's handle.
fn ask(alloc: Global, handle: &mut Handle, query: &Query, out: &mut Outcome) -> i32
    requires { query_of_port query.now ≡ false }
    ensures { IsAsked query.now handle.old.client result out.new handle.new.client }
{
    let told = handle.of_caller(alloc, Look { query });
    *out = look_outcome(&told);
    look_status(&told)
}

// Puts what was read over the buffer.
fn put_read(buffer: &mut [u8], told: &Option<Result<Answer, NotNow>>)
    ensures { buffer.new ≡ over buffer.old (read_bytes told.now) }
{
    if let Some(Ok(Answer::Read(bytes))) = told {
        put_over(buffer, bytes.as_slice());
    }
}

// The same of a question for bytes, which are put into the buffer.
fn peek(
    alloc: Global,
    handle: &mut Handle,
    query: &Query,
    buffer: &mut [u8],
    out: &mut Outcome,
) -> i32
    requires { query_of_port query.now ≡ false }
    ensures { IsPeeked query.now handle.old.client result buffer.old buffer.new out.new handle.new.client }
{
    let told = handle.of_caller(alloc, Look { query });
    put_read(buffer, &told);
    *out = look_outcome(&told);
    look_status(&told)
}

// How many bytes are asked for, where the buffer has so many; more than 64 are refused.
fn asked_len(len: usize) -> u8
    ensures { result ≡ min len 255 }
{
    len.min(255) as u8
}

/// How many pinned pages a user has.
#[unsafe(no_mangle)]
pub extern "C" fn defnulk_raw_held(
    alloc: Global,
    handle: &mut Handle,
    user: u16,
    out: &mut Outcome,
) -> i32
    ensures { IsAsked (Query.Held (record { 0 = user })) handle.old.client result out.new handle.new.client }
{
    ask(alloc, handle, &Query::Held(UserNo(user)), out)
}

/// How many frames of the pool are free.
#[unsafe(no_mangle)]
pub extern "C" fn defnulk_raw_free_frames(
    alloc: Global,
    handle: &mut Handle,
    out: &mut Outcome,
) -> i32
    ensures { IsAsked Query.FreeFrames handle.old.client result out.new handle.new.client }
{
    ask(alloc, handle, &Query::FreeFrames, out)
}

/// A user reads 1 to 64 bytes of its own memory, in one page, as many as the buffer has.
#[unsafe(no_mangle)]
pub extern "C" fn defnulk_raw_user_read(
    alloc: Global,
    handle: &mut Handle,
    user: u16,
    va: u64,
    buffer: &mut [u8],
    out: &mut Outcome,
) -> i32
    ensures { IsPeeked (Query.UserRead (record { 0 = user }) va (min (length buffer.old) 255)) handle.old.client result
        buffer.old buffer.new out.new handle.new.client }
{
    let query = Query::UserRead {
        user: UserNo(user),
        va,
        len: asked_len(buffer.len()),
    };
    peek(alloc, handle, &query, buffer, out)
}

/// Reads 1 to 64 bytes at an address that one of an access object's pins covers, as many as the buffer has.
#[unsafe(no_mangle)]
pub extern "C" fn defnulk_raw_access_read(
    alloc: Global,
    handle: &mut Handle,
    file: u16,
    access: u32,
    iova: u64,
    buffer: &mut [u8],
    out: &mut Outcome,
) -> i32
    ensures { IsPeeked (Query.AccessRead (record { 0 = file }) (record { 0 = access }) (record { 0 = iova })
        (min (length buffer.old) 255)) handle.old.client result buffer.old buffer.new out.new handle.new.client }
{
    let query = Query::AccessRead {
        file: FileNo(file),
        access: ObjId(access),
        iova: Iova(iova),
        len: asked_len(buffer.len()),
    };
    peek(alloc, handle, &query, buffer, out)
}

// Puts the notices over the room for spans.
fn put_notices(spans: &mut [SpanRow], told: &Option<Result<Vec<Span>, TryError<CallError>>>)
    ensures { spans.new ≡ over spans.old (spans_told told.now) }
{
    if let Some(Ok(notices)) = told {
        put_spans(spans, notices.as_slice());
    }
}

/// The notices of an access object, by which its driver is asked to let go: the spans of the leaving areas in which it
/// holds a pin. They stand at the front of `spans` by rising start, as many as there is place for. The value is how
/// many there are.
#[unsafe(no_mangle)]
pub extern "C" fn defnulk_raw_notices(
    alloc: Global,
    handle: &mut Handle,
    file: u16,
    access: u32,
    spans: &mut [SpanRow],
    out: &mut Outcome,
) -> i32
    ensures { AreNoticed (record { 0 = file }) (record { 0 = access }) handle.old.client result spans.old spans.new
        out.new handle.new.client }
{
    let call = Notices {
        file: FileNo(file),
        access: ObjId(access),
    };
    let told = handle.of_caller(alloc, call);
    put_notices(spans, &told);
    *out = notices_outcome(&told);
    notices_status(&told)
}

// Puts what is written back over the room, and answers how many bytes that is.
fn put_back(room: &mut [u8], told: &Option<Result<IoctlAnswer, TryError<NoMemory>>>) -> usize
    ensures put { room.new ≡ over room.old (back told.now) }
    ensures count { result ≡ length (back told.now) }
{
    if let Some(Ok(answer)) = told {
        put_over(room, answer.bytes.as_slice());
        return answer.bytes.len();
    }
    0
}

// Carries out a call of ioctl by a caller's handle.
fn serve(
    alloc: Global,
    handle: &mut Handle,
    file: FileNo,
    number: u32,
    bytes: &[u8],
    room: &mut [u8],
    written: &mut usize,
) -> i32
    ensures { IsServedBy file number bytes.now handle.old.client result room.old room.new written.new
        handle.new.client }
{
    let call = Ioctl {
        file,
        number,
        bytes,
    };
    let told = handle.of_caller(alloc, call);
    *written = put_back(room, &told);
    ioctl_status(&told)
}

/// Carries out a call of ioctl of a file. What is written back stands at the front of the room, as far as that has
/// place, and `written` says how many bytes it is. Less room than 64 bytes is EINVAL, and nothing is called.
#[unsafe(no_mangle)]
pub extern "C" fn defnulk_raw_ioctl(
    alloc: Global,
    handle: &mut Handle,
    file: u16,
    number: u32,
    bytes: &[u8],
    room: &mut [u8],
    written: &mut usize,
) -> i32
    ensures { IsCarriedOut (record { 0 = file }) number bytes.now handle.old.client result room.old room.new written.new
        handle.new.client }
{
    if room.len() < LEAST_ROOM {
        *written = 0;
        return EINVAL;
    }
    serve(alloc, handle, FileNo(file), number, bytes, room, written)
}

// Puts the journal over the room, and answers how many bytes it has.
fn put_journal(room: &mut [u8], told: &Option<Result<Vec<u8>, TryError<JournalError>>>) -> usize
    ensures put { room.new ≡ over room.old (journal_bytes told.now) }
    ensures count { result ≡ length (journal_bytes told.now) }
{
    if let Some(Ok(bytes)) = told {
        put_over(room, bytes.as_slice());
        return bytes.len();
    }
    0
}

/// The journal, of version 2, of what the server was opened with and of all its records (docs/JOURNAL.md). It stands at
/// the front of the room, as far as that has place, and `written` says how many bytes it is. EINVAL where a record has
/// no spelling.
#[unsafe(no_mangle)]
pub extern "C" fn defnulk_raw_journal(
    alloc: Global,
    handle: &mut Handle,
    room: &mut [u8],
    written: &mut usize,
) -> i32
    ensures { IsJournalled handle.old.client result room.old room.new written.new handle.new.client }
{
    let told = handle.of_caller(alloc, Journal);
    *written = put_journal(room, &told);
    journal_status(&told)
}
