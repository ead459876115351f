//! What a step told.

ghost use Rattle.std.specs.Prelude.{◌≡◌, true, false, IfOk, OnErr};
ghost use Rattle.iofd_words.specs.Record.{is_report, moves_one_way};
ghost use Rattle.iofd_words.specs.Told.{given_of, given_on, pass_of, reply_of, taken_of, taken_on};

use crate::fault::{AccessKind, Fault, FaultReason};
use crate::numbers::{FrameNo, Iova, ObjId, PassNo, SourceId};
use crate::refusal::{Errno, NoMemory, Refusal};
use crate::reply::Reply;
use std::alloc::{Allocator, Global};

/// Whether frames were taken or given back.
#[derive(Clone, Copy)]
pub(crate) enum Side {
    Taken,
    Given,
}

/// Who made a step, what was answered, and the table frames that moved. A history keeps very many of these, nearly all
/// without a frame: so each has a kind of its own for each reply, in 40 bytes, which is what a report takes.
#[derive(Drop)]
pub(crate) enum Told<A: Allocator = Global> {
    Done(Side, PassNo, Vec<FrameNo, A>),
    Id(Side, PassNo, ObjId, Vec<FrameNo, A>),
    Iova(Side, PassNo, Iova, Vec<FrameNo, A>),
    Bytes(Side, PassNo, u64, Vec<FrameNo, A>),
    Pending(Side, PassNo, Errno, Vec<FrameNo, A>),
    Frame(Side, PassNo, FrameNo, Vec<FrameNo, A>),
    Passed(Side, PassNo, FrameNo, Vec<FrameNo, A>),
    Fault(Side, PassNo, SourceId, AccessKind, FaultReason, u64, Vec<FrameNo, A>),
    Dirty(PassNo, [u64; 4]),
    Refused(Side, PassNo, Refusal, Vec<FrameNo, A>),
    // Frames of both sides, or some beside a report. A lawful step moves none so.
    Whole(Box<Whole<A>, A>),
}

/// The same, whatever it is.
#[derive(Drop)]
pub(crate) struct Whole<A: Allocator = Global> {
    pass: PassNo,
    reply: Reply,
    taken: Vec<FrameNo, A>,
    given: Vec<FrameNo, A>,
}

impl<A: Allocator> Told<A> {
    /// What this step told. It takes memory only where frames of both sides moved, or some beside a report.
    pub(crate) fn new(
        alloc: A,
        pass: PassNo,
        reply: Reply,
        taken: Vec<FrameNo, A>,
        given: Vec<FrameNo, A>,
    ) -> Result<Told<A>, NoMemory>
        ensures pass { IfOk result (λ told. pass_of told ≡ pass) }
        ensures reply { IfOk result (λ told. reply_of told ≡ reply) }
        ensures taken { IfOk result (λ told. taken_of told ≡ taken.items) }
        ensures given { IfOk result (λ told. given_of told ≡ given.items) }
        ensures memory { OnErr result (moves_one_way (is_report reply) taken.items given.items ≡ false) }
    {
        if !moves_one_way(reply, taken.as_slice(), given.as_slice()) {
            let whole = Whole {
                pass,
                reply,
                taken,
                given,
            };
            return Ok(Told::Whole(Box::new(alloc, whole)?));
        }
        if given.is_empty() {
            Ok(Told::one_way(pass, reply, Side::Taken, taken))
        } else {
            Ok(Told::one_way(pass, reply, Side::Given, given))
        }
    }

    // Of a step that moved frames of this side alone, and none beside a report.
    fn one_way(pass: PassNo, reply: Reply, side: Side, frames: Vec<FrameNo, A>) -> Told<A>
        requires { moves_one_way (is_report reply) (taken_on side frames.items) (given_on side frames.items) ≡ true }
        ensures pass { pass_of result ≡ pass }
        ensures reply { reply_of result ≡ reply }
        ensures taken { taken_of result ≡ taken_on side frames.items }
        ensures given { given_of result ≡ given_on side frames.items }
    {
        match reply {
            Reply::Done => Told::Done(side, pass, frames),
            Reply::Id(id) => Told::Id(side, pass, id, frames),
            Reply::Iova(iova) => Told::Iova(side, pass, iova, frames),
            Reply::Bytes(count) => Told::Bytes(side, pass, count, frames),
            Reply::Pending(errno) => Told::Pending(side, pass, errno, frames),
            Reply::Frame(frame) => Told::Frame(side, pass, frame, frames),
            Reply::Passed(frame) => Told::Passed(side, pass, frame, frames),
            Reply::Fault(fault) => Told::Fault(
                side,
                pass,
                fault.source,
                fault.kind,
                fault.reason,
                fault.page,
                frames,
            ),
            Reply::Dirty(words) => Told::Dirty(pass, words),
            Reply::Refused(refusal) => Told::Refused(side, pass, refusal, frames),
        }
    }

    /// Who made the step.
    pub(crate) fn pass(&self) -> PassNo
        ensures { result ≡ pass_of self.now }
    {
        match self {
            Told::Done(_, pass, _)
            | Told::Id(_, pass, _, _)
            | Told::Iova(_, pass, _, _)
            | Told::Bytes(_, pass, _, _)
            | Told::Pending(_, pass, _, _)
            | Told::Frame(_, pass, _, _)
            | Told::Passed(_, pass, _, _)
            | Told::Fault(_, pass, _, _, _, _, _)
            | Told::Dirty(pass, _)
            | Told::Refused(_, pass, _, _) => *pass,
            Told::Whole(whole) => whole.pass,
        }
    }

    /// What was answered.
    pub(crate) fn reply(&self) -> Reply
        ensures { result ≡ reply_of self.now }
    {
        match self {
            Told::Done(_, _, _) => Reply::Done,
            Told::Id(_, _, id, _) => Reply::Id(*id),
            Told::Iova(_, _, iova, _) => Reply::Iova(*iova),
            Told::Bytes(_, _, count, _) => Reply::Bytes(*count),
            Told::Pending(_, _, errno, _) => Reply::Pending(*errno),
            Told::Frame(_, _, frame, _) => Reply::Frame(*frame),
            Told::Passed(_, _, frame, _) => Reply::Passed(*frame),
            Told::Fault(_, _, source, kind, reason, page, _) => Reply::Fault(Fault {
                page: *page,
                source: *source,
                kind: *kind,
                reason: *reason,
            }),
            Told::Dirty(_, words) => Reply::Dirty(*words),
            Told::Refused(_, _, refusal, _) => Reply::Refused(*refusal),
            Told::Whole(whole) => whole.reply,
        }
    }

    /// The frames that were taken, in order.
    pub(crate) fn taken(&self) -> &[FrameNo]
        ensures { result.now ≡ taken_of self.now }
    {
        match self {
            Told::Done(Side::Taken, _, frames)
            | Told::Id(Side::Taken, _, _, frames)
            | Told::Iova(Side::Taken, _, _, frames)
            | Told::Bytes(Side::Taken, _, _, frames)
            | Told::Pending(Side::Taken, _, _, frames)
            | Told::Frame(Side::Taken, _, _, frames)
            | Told::Passed(Side::Taken, _, _, frames)
            | Told::Fault(Side::Taken, _, _, _, _, _, frames)
            | Told::Refused(Side::Taken, _, _, frames) => frames.as_slice(),
            Told::Whole(whole) => whole.taken.as_slice(),
            _ => &[],
        }
    }

    /// The frames that were given back, in order.
    pub(crate) fn given(&self) -> &[FrameNo]
        ensures { result.now ≡ given_of self.now }
    {
        match self {
            Told::Done(Side::Given, _, frames)
            | Told::Id(Side::Given, _, _, frames)
            | Told::Iova(Side::Given, _, _, frames)
            | Told::Bytes(Side::Given, _, _, frames)
            | Told::Pending(Side::Given, _, _, frames)
            | Told::Frame(Side::Given, _, _, frames)
            | Told::Passed(Side::Given, _, _, frames)
            | Told::Fault(Side::Given, _, _, _, _, _, frames)
            | Told::Refused(Side::Given, _, _, frames) => frames.as_slice(),
            Told::Whole(whole) => whole.given.as_slice(),
            _ => &[],
        }
    }
}

// Whether frames were taken or given back, not both, and none beside a report.
fn moves_one_way(reply: Reply, taken: &[FrameNo], given: &[FrameNo]) -> bool
    ensures { result ≡ moves_one_way (is_report reply) taken.now given.now }
{
    match reply {
        Reply::Dirty(_) => taken.is_empty() && given.is_empty(),
        _ => taken.is_empty() || given.is_empty(),
    }
}
