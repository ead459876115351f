//! One step of a session: carried out, and answered with a line.

ghost use Rattle.std.specs.Prelude.{◌≡◌, ◌⊎◌, ◌<◌, ◌^◌, IsTrue, length, true};
ghost use Rattle.iommufd_cli.specs.Replies.{event_text, line, memory_text, ranges_text};
ghost use Rattle.iommufd_cli.specs.Steps.{AreNotices, IsAnswered, IsApplied, IsAsked, IsDecoded, IsIoctl, IsNotices};
ghost use Rattle.iommufd_cli.specs.Steps.{IsRanges, IsReport, IsServed, is_plain_event, text_of};
ghost use Rattle.ioctl_codec.specs.Events.{asked};
ghost use Rattle.iommufd_core.specs.History.{may_look};
ghost use Rattle.iofd_words.specs.declared.event.Event.TheVariants as event;
ghost use Rattle.iofd_words.specs.declared.query.Query.TheVariants as query;

use crate::line::Line;
use crate::replies::{notices_line, ranges_line};
use ioctl_codec::{Asked, Command, DecodeError, RangesRequest, decode};
use iofd_words::{
    Act, CallError, DeviceNo, DirtyRequest, Event, FileNo, Iova, ObjId, PassNo, Query, Reply, Span,
    UserNo,
};
use iommufd_core::Core;
use iommufd_script::{AccessBytes, HexBytes, Step};
use std::alloc::Allocator;

/// The caller that a session's records have.
const CALLER: PassNo = PassNo(0);

/// The most bytes of an ioctl that are decoded in place: all but those of ALLOW_IOVAS with several ranges.
const SHORT: usize = 64;

/// Carries out a step of the script, and writes the line for it, in place of what `out` had: what the reply tells, or
/// `12 Memory` where memory was wanting, and then nothing has changed. A line of ranges or of notices, which may be
/// long, is answered in memory, and what `out` has isn't the answer then.
pub fn answer_step<A: Allocator + Copy>(
    alloc: A,
    core: &mut Core<A>,
    step: &Step<'_>,
    out: &mut Line,
) -> Option<Vec<u8, A>>
    ensures { IsAnswered core.old step.now (text_of result out.new) core.new }
{
    match step {
        Step::Ioctl(file, number, bytes) => {
            answer_ioctl(alloc, core, *file, *number, bytes, out)
        }
        Step::UserRead(user, va, len) => user_read(core, *user, *va, *len, out),
        Step::UserWrite(user, va, bytes) => user_write(core, *user, *va, bytes, out),
        Step::DeviceRead(device, iova, len) => device_read(core, *device, *iova, *len, out),
        Step::DeviceWrite(device, iova, bytes) => device_write(core, *device, *iova, bytes, out),
        Step::AccessRead(file, access, iova, len) => {
            access_read(core, *file, *access, *iova, *len, out)
        }
        Step::AccessWrite(file, access, iova, bytes) => {
            access_write(core, *file, *access, *iova, bytes, out)
        }
        Step::Notices(file, access) => answer_notices(alloc, core, *file, *access, out),
        Step::FreeFrames => answer_query(core, &Query::FreeFrames, out),
        Step::Held(user) => answer_query(core, &Query::Held(*user), out),
        _ => plain_event(core, step, out),
    }
}

// The line for a step that is an event of a few numbers.
fn plain_event<A: Allocator + Copy>(
    core: &mut Core<A>,
    step: &Step<'_>,
    out: &mut Line,
) -> Option<Vec<u8, A>>
    requires { is_plain_event step.now ≡ true }
    ensures { IsAnswered core.old step.now (text_of result out.new) core.new }
{
    let event = match step {
        Step::Close(file) => Event::Close(*file),
        Step::UserMap(user, va) => Event::UserMap(*user, *va),
        Step::UserUnmap(user, va) => Event::UserUnmap(*user, *va),
        Step::Bind(file, device) => Event::Bind(*file, *device),
        Step::Unbind(file, id) => Event::Unbind(*file, *id),
        Step::Attach(device, pt_id) => Event::Attach(*device, *pt_id),
        Step::Detach(device) => Event::Detach(*device),
        Step::Flush(device) => Event::Flush(*device),
        Step::AccessCreate(file) => Event::AccessCreate(*file),
        Step::AccessAttach(file, id, ioas) => Event::AccessAttach(*file, *id, *ioas),
        Step::AccessDetach(file, id) => Event::AccessDetach(*file, *id),
        Step::AccessPin(file, id, request) => Event::AccessPin(*file, *id, *request),
        Step::AccessUnpin(file, id, request) => Event::AccessUnpin(*file, *id, *request),
        _ => unreachable!(),
    };
    answer_event(core, event, out)
}

// The line for a user's read. Reads and writes, of which there are most, have a function each: the values that one
// needs for them take no time of the others' then.
fn user_read<A: Allocator>(
    core: &Core<A>,
    user: UserNo,
    va: u64,
    len: u8,
    out: &mut Line,
) -> Option<Vec<u8, A>>
    ensures { IsAsked core.now (query.UserRead user va len) (text_of result out.new) core.now }
{
    answer_query(core, &Query::UserRead { user, va, len }, out)
}

// The line for a user's write.
fn user_write<A: Allocator + Copy>(
    core: &mut Core<A>,
    user: UserNo,
    va: u64,
    bytes: &AccessBytes<'_>,
    out: &mut Line,
) -> Option<Vec<u8, A>>
    ensures { IsApplied core.old (event.UserWrite user va bytes.now) (text_of result out.new) core.new }
{
    answer_event(core, Event::UserWrite(user, va, bytes.burst()), out)
}

// The line for a device's read.
fn device_read<A: Allocator>(
    core: &Core<A>,
    device: DeviceNo,
    iova: Iova,
    len: u8,
    out: &mut Line,
) -> Option<Vec<u8, A>>
    ensures { IsAsked core.now (query.DeviceRead device iova len) (text_of result out.new) core.now }
{
    answer_query(core, &Query::DeviceRead { device, iova, len }, out)
}

// The line for a device's write.
fn device_write<A: Allocator + Copy>(
    core: &mut Core<A>,
    device: DeviceNo,
    iova: Iova,
    bytes: &AccessBytes<'_>,
    out: &mut Line,
) -> Option<Vec<u8, A>>
    ensures { IsApplied core.old (event.DeviceWrite device iova bytes.now) (text_of result out.new) core.new }
{
    answer_event(core, Event::DeviceWrite(device, iova, bytes.burst()), out)
}

// The line for an access object's read.
fn access_read<A: Allocator>(
    core: &Core<A>,
    file: FileNo,
    access: ObjId,
    iova: Iova,
    len: u8,
    out: &mut Line,
) -> Option<Vec<u8, A>>
    ensures { IsAsked core.now (query.AccessRead file access iova len) (text_of result out.new) core.now }
{
    let query = Query::AccessRead {
        file,
        access,
        iova,
        len,
    };
    answer_query(core, &query, out)
}

// The line for an access object's write.
fn access_write<A: Allocator + Copy>(
    core: &mut Core<A>,
    file: FileNo,
    access: ObjId,
    iova: Iova,
    bytes: &AccessBytes<'_>,
    out: &mut Line,
) -> Option<Vec<u8, A>>
    ensures { IsApplied core.old (event.AccessWrite file access iova bytes.now) (text_of result out.new) core.new }
{
    answer_event(
        core,
        Event::AccessWrite(file, access, iova, bytes.burst()),
        out,
    )
}

// The line for an event: always a short one.
fn answer_event<A: Allocator + Copy>(
    core: &mut Core<A>,
    event: Event<A>,
    out: &mut Line,
) -> Option<Vec<u8, A>>
    ensures { IsApplied core.old event (text_of result out.new) core.new }
{
    let act = Act { event, via: None };
    match core.apply(CALLER, &act) {
        Ok(stamp) => tell_event(act.event, &stamp.reply, out),
        Err(_) => out.tell_memory(),
    }
    None
}

// The line for a reply to an event: one that is a command's is told as an ioctl's.
fn tell_event<A: Allocator>(event: Event<A>, reply: &Reply, out: &mut Line)
    ensures { out.new ≡ line (event_text event reply.now) }
{
    match Command::of_event(event) {
        Some(command) => out.tell_ioctl(&command, reply),
        None => out.tell_reply(reply),
    }
}

// The line for a question: always a short one.
fn answer_query<A: Allocator>(core: &Core<A>, query: &Query, out: &mut Line) -> Option<Vec<u8, A>>
    requires { IsTrue (may_look core.now.history query.now) }
    ensures { IsAsked core.now query.now (text_of result out.new) core.now }
{
    out.tell_in_place(&core.look_in_place(query));
    None
}

// The line for an ioctl.
fn answer_ioctl<A: Allocator + Copy>(
    alloc: A,
    core: &mut Core<A>,
    file: FileNo,
    number: u32,
    bytes: &HexBytes<'_>,
    out: &mut Line,
) -> Option<Vec<u8, A>>
    ensures { IsIoctl core.old file number bytes.now (text_of result out.new) core.new }
{
    let len = bytes.len();
    if len > SHORT {
        return answer_long_ioctl(alloc, core, file, number, bytes, out);
    }
    let mut buffer = [0; SHORT];
    bytes.write_to(&mut buffer);
    answer_bytes(alloc, core, file, number, &buffer[..len], out)
}

// The line for an ioctl whose bytes take memory.
fn answer_long_ioctl<A: Allocator + Copy>(
    alloc: A,
    core: &mut Core<A>,
    file: FileNo,
    number: u32,
    bytes: &HexBytes<'_>,
    out: &mut Line,
) -> Option<Vec<u8, A>>
    requires { 64 < length bytes.now }
    ensures { IsIoctl core.old file number bytes.now (text_of result out.new) core.new }
{
    match bytes.to_vec(alloc) {
        Ok(bytes) => return answer_bytes(alloc, core, file, number, &bytes, out),
        Err(_) => out.tell_memory(),
    }
    None
}

// The line for an ioctl whose bytes are at hand.
fn answer_bytes<A: Allocator + Copy>(
    alloc: A,
    core: &mut Core<A>,
    file: FileNo,
    number: u32,
    bytes: &[u8],
    out: &mut Line,
) -> Option<Vec<u8, A>>
    ensures { IsDecoded core.old file number bytes.now (text_of result out.new) core.new }
{
    match decode(alloc, number, bytes) {
        Ok(command) => return answer_command(alloc, core, file, command, out),
        Err(DecodeError::Refused(refusal)) => out.tell_refusal(refusal),
        Err(DecodeError::Memory(_)) => out.tell_memory(),
    }
    None
}

// The line for a command of a file.
fn answer_command<A: Allocator + Copy>(
    alloc: A,
    core: &mut Core<A>,
    file: FileNo,
    command: Command<A>,
    out: &mut Line,
) -> Option<Vec<u8, A>>
    ensures { IsServed core.old file (asked file command) (text_of result out.new) core.new }
{
    match command.asked(file) {
        Asked::Event(event) => answer_event(core, event, out),
        Asked::Ranges(request) => answer_ranges(alloc, core, file, request, out),
        Asked::Dirty(request) => answer_report(core, file, request, out),
    }
}

// The line for the question which pages were written: always a short one.
fn answer_report<A: Allocator>(
    core: &Core<A>,
    file: FileNo,
    request: DirtyRequest,
    out: &mut Line,
) -> Option<Vec<u8, A>>
    ensures { IsReport core.now file request (text_of result out.new) core.now }
{
    let answer = core.look(&Query::Dirty { file, request });
    out.tell_report(request, &answer);
    None
}

// The line for the question for usable ranges.
fn answer_ranges<A: Allocator + Copy>(
    alloc: A,
    core: &Core<A>,
    file: FileNo,
    request: RangesRequest,
    out: &mut Line,
) -> Option<Vec<u8, A>>
    ensures { IsRanges core.now file request (text_of result out.new) core.now }
{
    match core.ranges(file, request.ioas) {
        Ok(ranges) => return told_ranges(alloc, request, ranges.spans(), out),
        Err(CallError::Refused(refusal)) => out.tell_refusal(refusal),
        Err(CallError::Memory(_)) => out.tell_memory(),
    }
    None
}

// The line that tells these ranges, or that there is no memory for it.
fn told_ranges<A: Allocator + Copy>(
    alloc: A,
    request: RangesRequest,
    ranges: &[Span],
    out: &mut Line,
) -> Option<Vec<u8, A>>
    requires { length ranges.now < 2 ^ 32 }
    ensures { (text_of result out.new ≡ line (ranges_text request ranges.now))
        ⊎ (text_of result out.new ≡ line memory_text) }
{
    match ranges_line(alloc, request, ranges) {
        Ok(text) => return Some(text),
        Err(_) => out.tell_memory(),
    }
    None
}

// The line for the question for an access object's notices.
fn answer_notices<A: Allocator + Copy>(
    alloc: A,
    core: &Core<A>,
    file: FileNo,
    access: ObjId,
    out: &mut Line,
) -> Option<Vec<u8, A>>
    ensures { IsNotices core.now file access (text_of result out.new) core.now }
{
    match core.notices(file, access) {
        Ok(spans) => return told_notices(alloc, spans.as_slice(), out),
        Err(CallError::Refused(refusal)) => out.tell_refusal(refusal),
        Err(CallError::Memory(_)) => out.tell_memory(),
    }
    None
}

// The line that tells the notices with these spans, or that there is no memory for it. Where there are none it takes
// none.
fn told_notices<A: Allocator>(alloc: A, spans: &[Span], out: &mut Line) -> Option<Vec<u8, A>>
    ensures { AreNotices spans.now (text_of result out.new) }
{
    if spans.is_empty() {
        out.tell_no_notice();
        return None;
    }
    match notices_line(alloc, spans) {
        Ok(text) => return Some(text),
        Err(_) => out.tell_memory(),
    }
    None
}
