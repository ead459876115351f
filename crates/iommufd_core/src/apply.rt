//! The core: a state, and the records of all steps that led to it.

ghost use Rattle.std.specs.Prelude.{◌≡◌, ◌<◌, ◌≤◌, ◌*◌, ◌^◌, [], IfOk, IsTrue, OnErr, OnOk, length, None};
ghost use Rattle.std.specs.Prelude.{vec_capacity, vec_len};
ghost use Rattle.iofd_words.specs.Accesses.{notices};
ghost use Rattle.iofd_refusals.specs.Checks as checks;
ghost use Rattle.iofd_words.specs.FirstTrue.{first_true};
ghost use Rattle.iofd_steps.specs.Look.{AreUsableRanges, answers_to, notices_checks, passes_in, ranges_checks};
ghost use Rattle.iofd_steps.specs.Run.{IsRun};
ghost use Rattle.server_state.specs.Choice.{IsChosen, IsLooked};
ghost use Rattle.iommufd_core.specs.History.{HasOneMore, may_apply, may_look, world};
ghost use Rattle.iommufd_core.specs.Refused.{refused_cause};
ghost use Rattle.iommufd_core.specs.Server.{DoublesRoom, KeepsRoom, MayWant};
ghost use Rattle.iofd_words.specs.View.{view};

use crate::answer_in_place::AnswerInPlace;
use crate::{events, look, notices, opening, ranges, turn_counts};
use event_device_access::access;
use iofd_words::{
    AccessKind, Act, Answer, CallError, Config, DeviceNo, FileNo, FrameNo, Iova, NoMemory, ObjId,
    PassNo, Query, Record, Reply, Span,
};
use iova_ranges::RangeSet;
use server_state::State;
use std::alloc::{Allocator, Global};
use std::marker::Model;

/// Where a record stands in the history, from 0, and its reply.
#[derive(Clone, Copy, PartialEq, Eq)]
pub struct Stamp {
    pub at: u64,
    pub reply: Reply,
}

/// The server of one thread: what it was opened with, and its history. A contract sees both, and for how many more
/// records there is memory; the world is what the records have left.
pub struct Core<A: Allocator = Global> {
    state: State<A>,
    // How many of the records are turns of each device, from device 1 on.
    turns: Vec<u64, A>,
    records: Vec<Record<A>, A>,
}

// Written out, so that it is proved here alone and not, with all that a core has, in each crate that drops one.
impl<A: Allocator> Drop for Core<A> {
    fn drop(self) {
        let Core {
            state: _,
            turns: _,
            records: _,
        } = self;
    }
}

impl<A: Allocator> Model for Core<A> {
    ghost use Rattle.std.specs.Prelude.{◌-◌, vec_len, vec_capacity};
    ghost use Rattle.iommufd_core.specs.Kept.{IsKept};
    ghost use Rattle.iommufd_core.specs.Server.{Server};

    ghost Value = { Server A };

    ghost view = { λ c. record {
      history = record { settings = c.state.config; records = c.records.items };
      room = vec_capacity c.records - vec_len c.records;
    } };

    ghost invariant = { λ c. IsKept c.state c.turns.items c.records.items };
}

impl<A: Allocator + Copy> Core<A> {
    /// A core with this configuration and no record: all frames are free, all files open and empty. It fails
    /// only where memory does.
    pub fn new<B: Allocator>(alloc: A, config: &Config<B>) -> Result<Core<A>, NoMemory>
        ensures { IfOk result (λ core. core.history ≡ record { settings = config.now; records = [] }) }
    {
        let turns = turn_counts::none(alloc, config.devices().len())?;
        Ok(Core {
            state: opening::opened(alloc, config)?,
            turns,
            records: Vec::new(alloc),
        })
    }

    /// Applies an event: exactly one record is appended, of this caller, with the event, its reply and the frames that
    /// it took for tables and gave back, at the position that the stamp names. Without a cached frame a device's write
    /// that may pass or be denied, since a flush is owed, is denied; with one it passes there.
    ///
    /// NoMemory comes only where a growth was really refused, and leaves the history as it was; room that was taken
    /// for records stays.
    pub fn apply(&mut self, pass: PassNo, act: &Act<A>) -> Result<Stamp, NoMemory>
        requires { IsTrue (may_apply self.old.history act.now.event act.now.via) }
        ensures record { IfOk result (λ stamp. HasOneMore pass act.now.event stamp.reply
            self.old.history self.new.history) }
        ensures at { IfOk result (λ stamp. stamp.at ≡ length self.old.history.records) }
        ensures run { IsRun self.new.history.settings self.new.history.records }
        ensures chosen { IfOk result (λ stamp.
            checks.refusal (world self.old.history) act.now.event ≡ None
            → IsChosen (world self.old.history) act.now.event act.now.via stamp.reply) }

        // Want of memory comes only where the record has no place, to an event that carries a list, or to one that
        // nothing refuses and by which something comes, tables may go or a page is marked; to a pin only where no equal
        // one is held, to an UNMAP only where it doesn't wait and some table goes, to a device's write only where it
        // passes and its mark is the first of its word. It changes nothing.
        ensures memory { OnErr result (MayWant self.old act.now) }
        ensures unchanged { OnErr result (self.new.history ≡ self.old.history) }

        // The memory that it has for records it keeps for them. Where it has none it takes it for as many as there are.
        ensures room { KeepsRoom self.old self.new }
        ensures doubles { OnOk result (DoublesRoom self.old self.new) }
    {
        let at = self.records.len() as u64;
        if make_room(&mut self.records).is_err() {
            return Err(NoMemory);
        }
        let alloc = self.state.alloc;
        let Ok(event) = act.event.copied(alloc) else {
            return Err(NoMemory);
        };
        let mut taken = Vec::new(alloc);
        let mut given = Vec::new(alloc);
        let Ok(reply) = events::answer(&mut self.state, at, act, &mut taken, &mut given) else {
            return Err(NoMemory);
        };
        let Ok(record) = Record::new(alloc, pass, event, reply, taken, given) else {
            // No event takes frames and gives some back, or moves some and tells a report.
            unreachable!()
        };
        turn_counts::count(&mut self.turns, &act.event);
        self.records.push_reserved(record);
        Ok(Stamp { at, reply })
    }

    /// The usable ranges of the file's address space of this id, by rising start (uapi header,
    /// `IOMMU_IOAS_IOVA_RANGES`): the addresses that each of its page tables translates and no device attached to it
    /// keeps for itself, the allowed ones or not. The question changes nothing.
    ///
    /// Refused: Id (11, ENOENT), where the file isn't open or the id is no address space of it. It takes memory only
    /// for the answer. By the limits of objects and of devices there are never more ranges than the command's structure
    /// counts.
    pub fn ranges(&self, file: FileNo, ioas: ObjId) -> Result<RangeSet<A>, CallError>
        ensures refused { refused_cause result
            ≡ first_true (ranges_checks (view (world self.now.history)) file ioas) }
        ensures ranges { IfOk result (λ set. AreUsableRanges (view (world self.now.history)) file ioas set.spans) }
        ensures few { IfOk result (λ set. length set.spans < 2 ^ 32) }
    {
        // It is within its limits: so there are few ranges.
        self.state.config.facts();
        ranges::usable_ranges(&self.state, file, ioas)
    }

    /// The notices of the file's access object of this id, by which its driver is asked to let go (struct
    /// iommufd_access_ops, `unmap`, of the kernel): the spans of the leaving areas in which it holds a pin, by rising
    /// start. Attached to nothing it has none. The question changes nothing.
    ///
    /// Refused: Id (11, ENOENT), where the file isn't open or the id is no access object of it. It takes memory only
    /// for the answer, so want of it comes only where there are notices.
    pub fn notices(&self, file: FileNo, access: ObjId) -> Result<Vec<Span, A>, CallError>
        ensures refused { refused_cause result
            ≡ first_true (notices_checks (view (world self.now.history)) file access) }
        ensures spans { IfOk result (λ spans. spans.items ≡ notices (view (world self.now.history)) file access) }
        ensures memory { result ≡ Err (CallError.Memory (record {}))
            → 0 < length (notices (view (world self.now.history)) file access) }
    {
        notices::notices(&self.state, file, access)
    }
}

impl<A: Allocator> Core<A> {
    /// Answers a question about the world or the records. It takes no memory and changes nothing. A device that owes
    /// the area a flush is denied. A read at a kept frame may be asked for only where `may_pass` says that it passes
    /// there.
    pub fn look(&self, query: &Query) -> Answer
        requires { IsTrue (may_look self.now.history query.now) }
        ensures { IsLooked (answers_to self.now.history.settings self.now.history.records query.now) result }
    {
        look::look(&self.state, &self.turns, query)
    }

    /// Answers a question as `look` does. The bytes of a read stay in the memory that was read, so that whoever tells
    /// them copies them once; those at a kept frame are copied.
    pub fn look_in_place(&self, query: &Query) -> AnswerInPlace<'_>
        requires { IsTrue (may_look self.now.history query.now) }
        ensures { IsLooked (answers_to self.now.history.settings self.now.history.records query.now) result }
    {
        look::look_in_place(&self.state, &self.turns, query)
    }

    /// Whether nothing refuses the device's access to so many bytes, and the policy lets it pass at this frame: the
    /// test of what `apply` asks of an act with a cached frame, and `look` of a read at a kept one. It takes no memory.
    pub fn may_pass(
        &self,
        device: DeviceNo,
        iova: Iova,
        len: u8,
        right: AccessKind,
        frame: FrameNo,
    ) -> bool
        ensures { result ≡ passes_in (world self.now.history) device iova len right frame }
    {
        access::refusal(&self.state, device, iova, usize::from(len)).is_none()
            && access::may_pass(&self.state, device, iova.0, right, frame)
    }

    /// What it was opened with.
    pub fn config(&self) -> &Config<A>
        ensures { result.now ≡ self.now.history.settings }
    {
        &self.state.config
    }

    /// The records, from the first on.
    pub fn records(&self) -> &[Record<A>]
        ensures value { result.now ≡ self.now.history.records }
        ensures run { IsRun self.now.history.settings self.now.history.records }
    {
        self.records.as_slice()
    }
}

// Makes room for one more where there is none, and then for as many as there are: so room is seldom lacking. The only
// error is want of memory, where there is none, and leaves the values.
fn make_room<T, A: Allocator>(values: &mut Vec<T, A>) -> Result<(), NoMemory>
    ensures items { values.new.items ≡ values.old.items }
    ensures len { vec_len values.new ≡ vec_len values.old }
    ensures ok { OnOk result (vec_len values.new < vec_capacity values.new) }
    ensures capacity { vec_capacity values.old ≤ vec_capacity values.new }
    ensures full { OnErr result (vec_capacity values.old ≤ vec_len values.old) }
    ensures doubled { OnOk result (vec_capacity values.old ≤ vec_len values.old
        → 2 * vec_len values.new ≤ vec_capacity values.new) }
{
    if values.len() < values.capacity() {
        return Ok(());
    }
    values.reserve(values.len().max(1))?;
    Ok(())
}
