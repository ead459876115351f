//! Calls of ioctl, byte by byte.

ghost use Rattle.std.specs.Prelude.{◌≡◌, ◌<◌, ◌^◌, ◌≤◌, ◌++◌, Some, [], drop, length, take, vec_len, IfOk};
ghost use Rattle.iofd_words.specs.Refusal.{errno_of};
ghost use Rattle.ioctl_codec.specs.Events.{ranges_errno};
ghost use Rattle.ioctl_codec.specs.Spelling.{ranges_written_back};
ghost use Rattle.shared_iommufd.specs.Ioctls.{Answers, AnswersEvent, AnswersReport, AnswersSet, event_written_back};
ghost use Rattle.shared_iommufd.specs.Ioctls.{reply_told, report_written_back};

use crate::ioctl_answer::IoctlAnswer;
use crate::server::{Pass, Server};
use guarded_core::{KeptCore, ObjectOf, TryError, show, try_show};
use ioctl_codec::{
    Asked, Command, DecodeError, RangesRequest, decode, encode_ranges, encode_reply_to, errno_of,
    ranges_errno,
};
use iofd_words::{
    Act, Answer, CallError, DirtyRequest, Event, FileNo, NoMemory, Query, Refusal, Reply, Span,
};
use iova_ranges::RangeSet;
use std::alloc::Allocator;
use std::sync::Wait;

// Room for what is written back for an event, which `encode_reply_to` asks for.
const ROOM: usize = 64;

// What is answered where a call is refused.
fn refused<A: Allocator>(alloc: A, refusal: Refusal) -> IoctlAnswer<A>
    ensures { Answers result (Some (errno_of refusal.cause)) [] }
{
    IoctlAnswer {
        errno: Some(refusal.errno()),
        bytes: Vec::new(alloc),
    }
}

// Memory for what is written back for an event, taken before the event is applied.
fn room_for_reply<A: Allocator>(alloc: A) -> Result<Vec<u8, A>, NoMemory>
    ensures { IfOk result (λ room. vec_len room ≡ 64) }
{
    Vec::from_slice(alloc, &[0; ROOM]).map_err(|_| NoMemory)
}

// Writes what is written back for an event that has this reply to the front of the buffer, and answers how many bytes
// that is.
fn write_back<A: Allocator>(event: Event<A>, reply: &Reply, buffer: &mut [u8; 64]) -> usize
    ensures count { result ≡ length (event_written_back event reply.now) }
    ensures at_most { result ≤ 64 }
    ensures bytes { buffer.new ≡ event_written_back event reply.now ++ drop result buffer.old }
{
    match Command::of_event(event) {
        Some(command) => encode_reply_to(&command, reply, buffer),
        None => 0,
    }
}

// What is answered where an event has this reply.
fn written<A: Allocator>(event: Event<A>, reply: &Reply, room: Vec<u8, A>) -> IoctlAnswer<A>
    requires { vec_len room ≡ 64 }
    ensures { AnswersEvent event reply.now result }
{
    let mut buffer = [0; 64];
    let count = write_back(event, reply, &mut buffer);
    IoctlAnswer {
        errno: errno_of(reply),
        bytes: filled(room, &buffer, count),
    }
}

// The room with so many bytes from the front of the buffer.
fn filled<A: Allocator>(mut room: Vec<u8, A>, buffer: &[u8; 64], count: usize) -> Vec<u8, A>
    requires room { vec_len room ≡ 64 }
    requires within { count ≤ 64 }
    ensures { result.items ≡ take count buffer.now }
{
    room.copy_from_slice(buffer);
    room.truncate(count);
    room
}

// What the question which pages were written is answered, as a reply to its command.
fn reply_told(told: &Answer) -> Reply
    ensures { result ≡ reply_told told.now }
{
    match told {
        Answer::Dirty(words) => Reply::Dirty(*words),
        Answer::Refused(refusal) => Reply::Refused(*refusal),
        _ => Reply::Done,
    }
}

// Writes what is written back for a report that is told so to the front of the buffer, and answers how many bytes that
// is.
#[tactic(auto, unfolding(crate::specs::Ioctls::report_written_back))]
fn write_report(request: DirtyRequest, reply: &Reply, buffer: &mut [u8; 64]) -> usize
    ensures count { result ≡ length (report_written_back request reply.now) }
    ensures at_most { result ≤ 64 }
    ensures bytes { buffer.new ≡ report_written_back request reply.now ++ drop result buffer.old }
{
    let command: Command = Command::DirtyReport(request, false);
    encode_reply_to(&command, reply, buffer)
}

// What is answered where that question is answered so.
fn reported<A: Allocator>(request: DirtyRequest, told: &Answer, room: Vec<u8, A>) -> IoctlAnswer<A>
    requires { vec_len room ≡ 64 }
    ensures { AnswersReport request told.now result }
{
    let reply = reply_told(told);
    let mut buffer = [0; 64];
    let count = write_report(request, &reply, &mut buffer);
    IoctlAnswer {
        errno: errno_of(&reply),
        bytes: filled(room, &buffer, count),
    }
}

// What is answered to the question for usable ranges where the core tells these.
fn answer_ranges<A: Allocator, B: Allocator>(
    alloc: A,
    request: RangesRequest,
    ranges: Result<RangeSet<B>, CallError>,
) -> Result<IoctlAnswer<A>, NoMemory>
    requires { IfOk ranges (λ set. length set.spans < 2 ^ 32) }
    ensures { IfOk result (AnswersSet B request ranges) }
{
    match ranges {
        Ok(set) => told(alloc, request, set.spans()),
        Err(CallError::Refused(refusal)) => Ok(refused(alloc, refusal)),
        Err(CallError::Memory(error)) => Err(error),
    }
}

// What is answered where these are the usable ranges that were asked for.
fn told<A: Allocator>(
    alloc: A,
    request: RangesRequest,
    ranges: &[Span],
) -> Result<IoctlAnswer<A>, NoMemory>
    requires { length ranges.now < 2 ^ 32 }
    ensures { IfOk result (λ answer. Answers answer (ranges_errno request (length ranges.now))
        (ranges_written_back request ranges.now)) }
{
    Ok(IoctlAnswer {
        errno: ranges_errno(request, ranges.len()),
        bytes: encode_ranges(alloc, request, ranges)?,
    })
}

impl<A: Allocator + Copy> Server<A> {
    ghost use Rattle.std.specs.Prelude.{◌⊎◌, None, OnErr, IfErr};
    ghost use Rattle.ioctl_codec.specs.Events.{asked};
    ghost use Rattle.ioctl_codec.specs.Refusals.{refusal};
    ghost use Rattle.lane_lock.specs.Outcomes.{HadLane, HadNoLane, HadNone, MetNone, OnlySees};
    ghost use Rattle.lane_lock.specs.Passes.{SamePass, lane_of, lanes_of, view_of};
    ghost use Rattle.shared_iommufd.specs.Ioctls.{FailsAsked, FailsIoctl};
    ghost use Rattle.shared_iommufd.specs.Ioctls.{IsDecoded, IsMade, IsReported, IsServed, IsTold};
    ghost use Rattle.shared_iommufd.specs.Ioctls.{RefusesAsked, RefusesEvent, RefusesIoctl, RefusesLook};
    ghost use Rattle.shared_iommufd.specs.Servers.{IsPassOf, settings_of};

    /// Carries out a call of ioctl that the file makes with this number and these bytes (uapi header `iommufd.h`), once
    /// its lanes can be had. A command that changes something makes exactly one record, as `call` does;
    /// IOAS_IOVA_RANGES and a DIRTY_REPORT that doesn't clear are answered as of all records that the pass has then
    /// seen; bytes that spell no command are refused, take no lane and make no record.
    ///
    /// The memory of an event's answer is taken before the event is applied: with NoMemory no record was made. Bytes
    /// that spell no command are never answered so.
    pub fn ioctl<R: Wait>(
        &self,
        rt: &R,
        pass: &mut Pass<A>,
        file: FileNo,
        number: u32,
        bytes: &[u8],
    ) -> Result<IoctlAnswer<A>, NoMemory>
        requires owned { IsPassOf self.now pass.old }
        ensures same_pass { SamePass pass.old pass.new }
        ensures owned { IsPassOf self.now pass.new }
        ensures served { IfOk result (λ answer.
            IsDecoded (settings_of self.now) pass.old file number bytes.now answer pass.new) }
        ensures spelt { OnErr result (refusal number bytes.now ≡ None) }
        ensures none { OnErr result (OnlySees (view_of pass.old) (view_of pass.new)) }
        ensures had { OnErr result (FailsIoctl A file number bytes.now (view_of pass.old) (view_of pass.new)) }
    {
        match decode(self.alloc, number, bytes) {
            Ok(command) => self.serve(rt, pass, file, command),
            Err(DecodeError::Refused(refusal)) => Ok(refused(self.alloc, refusal)),
            Err(DecodeError::Memory(error)) => Err(error),
        }
    }

    /// The same without waiting. NotNow where a lane is held or empty, or a share of the core is still held elsewhere:
    /// then no record is made.
    pub fn try_ioctl(
        &self,
        pass: &mut Pass<A>,
        file: FileNo,
        number: u32,
        bytes: &[u8],
    ) -> Result<IoctlAnswer<A>, TryError<NoMemory>>
        requires owned { IsPassOf self.now pass.old }
        ensures same_pass { SamePass pass.old pass.new }
        ensures owned { IsPassOf self.now pass.new }
        ensures served { IfOk result (λ answer.
            IsDecoded (settings_of self.now) pass.old file number bytes.now answer pass.new) }
        ensures met { IfOk result (λ _. MetNone (view_of pass.old) (view_of pass.new)) }
        ensures refused { IfErr result (RefusesIoctl A file number bytes.now (lanes_of self.now.lock) (lane_of pass.old)
            (view_of pass.old) (view_of pass.new)) }
    {
        match decode(self.alloc, number, bytes) {
            Ok(command) => self.try_serve(pass, file, command),
            Err(DecodeError::Refused(refusal)) => Ok(refused(self.alloc, refusal)),
            Err(DecodeError::Memory(error)) => Err(TryError::Call(error)),
        }
    }

    // Carries out what a command asks for.
    fn serve<R: Wait>(
        &self,
        rt: &R,
        pass: &mut Pass<A>,
        file: FileNo,
        command: Command<A>,
    ) -> Result<IoctlAnswer<A>, NoMemory>
        requires owned { IsPassOf self.now pass.old }
        ensures same_pass { SamePass pass.old pass.new }
        ensures owned { IsPassOf self.now pass.new }
        ensures served { IfOk result (λ answer.
            IsServed (settings_of self.now) pass.old file (asked file command) answer pass.new) }
        ensures none { OnErr result (OnlySees (view_of pass.old) (view_of pass.new)) }
        ensures had { OnErr result (FailsAsked (asked file command) (view_of pass.old) (view_of pass.new)) }
    {
        match command.asked(file) {
            Asked::Event(event) => self.answer_event(rt, pass, event),
            Asked::Ranges(request) => self.tell_ranges(rt, pass, file, request),
            Asked::Dirty(request) => self.tell_report(rt, pass, file, request),
        }
    }

    // The same without waiting.
    fn try_serve(
        &self,
        pass: &mut Pass<A>,
        file: FileNo,
        command: Command<A>,
    ) -> Result<IoctlAnswer<A>, TryError<NoMemory>>
        requires owned { IsPassOf self.now pass.old }
        ensures same_pass { SamePass pass.old pass.new }
        ensures owned { IsPassOf self.now pass.new }
        ensures served { IfOk result (λ answer.
            IsServed (settings_of self.now) pass.old file (asked file command) answer pass.new) }
        ensures met { IfOk result (λ _. MetNone (view_of pass.old) (view_of pass.new)) }
        ensures refused { IfErr result (RefusesAsked (lanes_of self.now.lock) (lane_of pass.old) (asked file command)
            (view_of pass.old) (view_of pass.new)) }
    {
        match command.asked(file) {
            Asked::Event(event) => self.try_answer_event(pass, event),
            Asked::Ranges(request) => self.try_tell_ranges(pass, file, request),
            Asked::Dirty(request) => self.try_tell_report(pass, file, request),
        }
    }

    // Makes the record of an event that a command asks for, and answers its reply.
    fn answer_event<R: Wait>(
        &self,
        rt: &R,
        pass: &mut Pass<A>,
        event: Event<A>,
    ) -> Result<IoctlAnswer<A>, NoMemory>
        requires owned { IsPassOf self.now pass.old }
        ensures same_pass { SamePass pass.old pass.new }
        ensures owned { IsPassOf self.now pass.new }
        ensures made { IfOk result (λ answer. IsMade (settings_of self.now) pass.old event answer pass.new) }
        ensures none { OnErr result (OnlySees (view_of pass.old) (view_of pass.new)) }
        ensures had { OnErr result (HadNoLane (view_of pass.old) (view_of pass.new)) }
    {
        let room = room_for_reply(self.alloc)?;
        let act = Act { event, via: None };
        let stamp = self.make(rt, pass, &act)?;
        Ok(written(act.event, &stamp.reply, room))
    }

    // The same without waiting.
    fn try_answer_event(
        &self,
        pass: &mut Pass<A>,
        event: Event<A>,
    ) -> Result<IoctlAnswer<A>, TryError<NoMemory>>
        requires owned { IsPassOf self.now pass.old }
        ensures same_pass { SamePass pass.old pass.new }
        ensures owned { IsPassOf self.now pass.new }
        ensures made { IfOk result (λ answer. IsMade (settings_of self.now) pass.old event answer pass.new) }
        ensures met { IfOk result (λ _. MetNone (view_of pass.old) (view_of pass.new)) }
        ensures refused { IfErr result (RefusesEvent (lanes_of self.now.lock) (view_of pass.old) (view_of pass.new)) }
    {
        let Ok(room) = room_for_reply(self.alloc) else {
            return Err(TryError::Call(NoMemory));
        };
        let act = Act { event, via: None };
        match self.try_make(pass, &act) {
            Ok(stamp) => Ok(written(act.event, &stamp.reply, room)),
            Err(error) => Err(error),
        }
    }

    // The answer to the question which pages were written.
    fn tell_report<R: Wait>(
        &self,
        rt: &R,
        pass: &mut Pass<A>,
        file: FileNo,
        request: DirtyRequest,
    ) -> Result<IoctlAnswer<A>, NoMemory>
        requires owned { IsPassOf self.now pass.old }
        ensures same_pass { SamePass pass.old pass.new }
        ensures owned { IsPassOf self.now pass.new }
        ensures told { IfOk result (λ answer. IsReported (settings_of self.now) pass.old file request answer pass.new) }
        ensures none { OnErr result (OnlySees (view_of pass.old) (view_of pass.new)) }
        ensures had { OnErr result (HadNone (view_of pass.old) (view_of pass.new)
            ⊎ HadLane (view_of pass.old) (view_of pass.new)) }
    {
        let room = room_for_reply(self.alloc)?;
        let told = self.look(rt, pass, &Query::Dirty { file, request });
        Ok(reported(request, &told, room))
    }

    // The same without waiting.
    fn try_tell_report(
        &self,
        pass: &mut Pass<A>,
        file: FileNo,
        request: DirtyRequest,
    ) -> Result<IoctlAnswer<A>, TryError<NoMemory>>
        requires owned { IsPassOf self.now pass.old }
        ensures same_pass { SamePass pass.old pass.new }
        ensures owned { IsPassOf self.now pass.new }
        ensures told { IfOk result (λ answer. IsReported (settings_of self.now) pass.old file request answer pass.new) }
        ensures met { IfOk result (λ _. MetNone (view_of pass.old) (view_of pass.new)) }
        ensures refused { IfErr result (RefusesLook (lane_of pass.old) (view_of pass.old) (view_of pass.new)) }
    {
        let Ok(room) = room_for_reply(self.alloc) else {
            return Err(TryError::Call(NoMemory));
        };
        match self.try_look(pass, &Query::Dirty { file, request }) {
            Ok(told) => Ok(reported(request, &told, room)),
            Err(refused) => Err(TryError::NotNow(refused)),
        }
    }

    // The answer to the question for usable ranges.
    fn tell_ranges<R: Wait>(
        &self,
        rt: &R,
        pass: &mut Pass<A>,
        file: FileNo,
        request: RangesRequest,
    ) -> Result<IoctlAnswer<A>, NoMemory>
        requires owned { IsPassOf self.now pass.old }
        ensures same_pass { SamePass pass.old pass.new }
        ensures owned { IsPassOf self.now pass.new }
        ensures told { IfOk result (λ answer. IsTold (settings_of self.now) pass.old file request answer pass.new) }
        ensures none { OnErr result (OnlySees (view_of pass.old) (view_of pass.new)) }
        ensures had { OnErr result (HadNone (view_of pass.old) (view_of pass.new)
            ⊎ HadLane (view_of pass.old) (view_of pass.new)) }
    {
        let ioas = ObjectOf {
            file,
            id: request.ioas,
        };
        let ranges = show(rt, &self.lock, pass, ioas, KeptCore::ranges);
        answer_ranges(self.alloc, request, ranges)
    }

    // The same without waiting.
    fn try_tell_ranges(
        &self,
        pass: &mut Pass<A>,
        file: FileNo,
        request: RangesRequest,
    ) -> Result<IoctlAnswer<A>, TryError<NoMemory>>
        requires owned { IsPassOf self.now pass.old }
        ensures same_pass { SamePass pass.old pass.new }
        ensures owned { IsPassOf self.now pass.new }
        ensures told { IfOk result (λ answer. IsTold (settings_of self.now) pass.old file request answer pass.new) }
        ensures met { IfOk result (λ _. MetNone (view_of pass.old) (view_of pass.new)) }
        ensures refused { IfErr result (RefusesLook (lane_of pass.old) (view_of pass.old) (view_of pass.new)) }
    {
        let ioas = ObjectOf {
            file,
            id: request.ioas,
        };
        match try_show(&self.lock, pass, ioas, KeptCore::ranges) {
            Ok(ranges) => match answer_ranges(self.alloc, request, ranges) {
                Ok(answer) => Ok(answer),
                Err(error) => Err(TryError::Call(error)),
            },
            Err(refused) => Err(TryError::NotNow(refused)),
        }
    }
}
