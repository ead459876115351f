//! A core as the lock keeps it.

ghost use Rattle.std.specs.Prelude.{◌≡◌, false};
ghost use Rattle.iofd_steps.specs.Look.{answers_to};
ghost use Rattle.iofd_steps.specs.Run.{IsRun};
ghost use Rattle.server_state.specs.Choice.{IsLooked};
ghost use Rattle.guarded_core.specs.OfPort.{query_of_port};
ghost use Rattle.guarded_core.specs.Told.{TellsJournal, TellsNotices, TellsRanges};

use iofd_words::{
    Act, Answer, CallError, Config, FileNo, NoMemory, ObjId, PassNo, Query, Record, Span,
};
use iommufd_core::{Core, Stamp};
use iova_ranges::RangeSet;
use journal_audit_writing::{JournalError, journal};
use lane_lock::Kept;
use std::alloc::{Allocator, Global};

/// An entry of a shared server's history: first what it was opened with, then each record. No value of it is made.
pub enum Entry<A: Allocator = Global> {
    /// What the server was opened with.
    Opened(Config<A>),
    /// A record of the core.
    Made(Record<A>),
}

/// An object of a file, that a question is for.
#[derive(Clone, Copy)]
pub struct ObjectOf {
    pub file: FileNo,
    pub id: ObjId,
}

/// A core under a lock.
pub struct KeptCore<A: Allocator = Global> {
    pub core: Core<A>,
}

// Written out, so that it is proved here alone and not in each crate that drops one.
impl<A: Allocator> Drop for KeptCore<A> {
    fn drop(self) {
        let KeptCore { core: _ } = self;
    }
}

impl<A: Allocator> KeptCore<A> {
    /// The core, once it is kept no more.
    pub fn into_core(self) -> Core<A>
        ensures { result ≡ self.core }
    {
        let KeptCore { core } = self;
        core
    }
}

impl<A: Allocator + Copy> KeptCore<A> {
    /// The core.
    pub fn core(&self) -> &Core<A>
        ensures value { result.now ≡ self.now.core }
        ensures run { IsRun self.now.core.history.settings self.now.core.history.records }
    {
        let _records = self.core.records();
        &self.core
    }

    /// What the core answers to the question for an access object's notices.
    pub fn notices(&self, access: ObjectOf) -> Result<Vec<Span, A>, CallError>
        ensures notices { TellsNotices self.now.core.history access.file access.id result }
        ensures run { IsRun self.now.core.history.settings self.now.core.history.records }
    {
        self.core().notices(access.file, access.id)
    }

    /// What the core answers to the question for an address space's usable ranges.
    pub fn ranges(&self, ioas: ObjectOf) -> Result<RangeSet<A>, CallError>
        ensures ranges { TellsRanges A self.now.core.history ioas.file ioas.id result }
        ensures run { IsRun self.now.core.history.settings self.now.core.history.records }
    {
        self.core().ranges(ioas.file, ioas.id)
    }

    /// The journal, of version 2, of what the core was opened with and of its records, in memory of this allocator.
    pub fn journal(&self, alloc: A) -> Result<Vec<u8, A>, JournalError>
        ensures journal { TellsJournal self.now.core.history result }
        ensures run { IsRun self.now.core.history.settings self.now.core.history.records }
    {
        let core = self.core();
        journal(alloc, core.config(), core.records())
    }

    /// What the core answers to the question, which isn't one of a port.
    pub fn look(&self, query: &Query) -> Answer
        requires { query_of_port query.now ≡ false }
        ensures answer { IsLooked (answers_to self.now.core.history.settings self.now.core.history.records query.now)
            result }
        ensures run { IsRun self.now.core.history.settings self.now.core.history.records }
    {
        self.core().look(query)
    }
}

impl<A: Allocator + Copy> Kept for KeptCore<A> {
    type Act = Act<A>;

    type Stamp = Stamp;

    type Record = Entry<A>;

    ghost use Rattle.std.specs.Prelude.{IsTrue};
    ghost use Rattle.iommufd_core.specs.History.{may_apply};
    ghost use Rattle.iommufd_core.specs.Server.{MayWant};
    ghost use Rattle.guarded_core.specs.Entries.{maker_of, told};
    ghost use Rattle.guarded_core.specs.Applied.{IsApplied};

    ghost history = { λ it. told it.core.history };

    ghost maker = { maker_of };

    ghost AHEAD = { 1 };

    const AHEAD: u64 = 1;

    ghost may = { λ it act. IsTrue (may_apply it.core.history act.event act.via) };

    ghost gives = { λ before pass act stamp after.
        IsApplied (record { 0 = pass }) act stamp before.core.history after.core.history };

    ghost wants = { λ it act. MayWant it.core act };

    fn apply(&mut self, pass: PassNo, act: &Act<A>) -> Result<Stamp, NoMemory> {
        self.core.apply(pass, act)
    }

    fn len(&self) -> u64 {
        self.core.records().len() as u64 + 1
    }
}
