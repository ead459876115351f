//! The guard that shows the value to a writer, and commits one act.

ghost use Rattle.lane_lock.specs.Passes.{Owns};

use crate::kept::Kept;
use crate::lock::LaneLock;
use crate::pass::Pass;
use crate::refusal::{Busy, CommitError};

/// Shows the value to one pass, which has all lanes meanwhile.
pub struct WriteGuard<'a, K: Kept> {
    pub(crate) lock: &'a LaneLock<K>,
    pub(crate) pass: &'a mut Pass<K>,
    ghost owned: { Owns lock.now pass.now },
}

impl<K: Kept> Pass<K> {
    ghost use Rattle.std.specs.Borrow.{sem};
    ghost use Rattle.std.specs.Prelude.{◌≡◌, IfOk};
    ghost use Rattle.lane_lock.specs.Outcomes.{HadAll, MetNone, OnlySees};
    ghost use Rattle.lane_lock.specs.Passes.{Owns, SamePass, IsWriting, view_of};
    ghost use Rattle.lane_lock.specs.WriteGuards.{RestsUnlessWriting};

    /// As `LaneLock::try_write`.
    pub fn try_write<'a>(&'a mut self, lock: &'a LaneLock<K>) -> Result<WriteGuard<'a, K>, Busy>
        requires { Owns lock.now self.old }
        ensures* refused { sem 𝓛
            (RestsUnlessWriting K.row K.Act.row K.Stamp.row K.Record.row K.Kept lock.now.lanes self.entry result) }
        ensures same_reference { IfOk result (λ g. g.pass.ghost_name ≡ self.entry.ghost_name) }
        ensures lock { IfOk result (λ g. g.lock.now ≡ lock.now) }
        ensures same_pass { IfOk result (λ g. SamePass self.old g.pass.now) }
        ensures writing { IfOk result (λ g. IsWriting lock.now g.pass.now) }
        ensures sees { IfOk result (λ g. OnlySees (view_of self.old) (view_of g.pass.now)) }
        ensures met { IfOk result (λ g. MetNone (view_of self.old) (view_of g.pass.now)) }
        ensures had { IfOk result (λ g. HadAll (view_of self.old) (view_of g.pass.now)) }
    {
        lock.start_write(self)?;
        Ok(WriteGuard { lock, pass: self })
    }
}

impl<'a, K: Kept> WriteGuard<'a, K> {
    ghost use Rattle.std.specs.Prelude.{◌≡◌, length, IfOk, IfErr, OnErr};
    ghost use Rattle.lane_lock.specs.History.{Legal, StartsWith};
    ghost use Rattle.lane_lock.specs.Outcomes.{HadNone, KeepsHistory, MetNone};
    ghost use Rattle.lane_lock.specs.Passes.{
      SamePass,
      IsWriting,
      ShowsValue,
      Commits,
      MayWant,
      view_of,
      number_of,
      opening_of,
    };
    ghost use Rattle.lane_lock.specs.Views.{IsBlank};

    /// The value. Its history begins with the opening value's, is all that the pass has seen, and is legal for the
    /// pass.
    pub fn get(&self) -> &K
        requires { IsWriting self.now.lock.now self.now.pass.now }
        ensures value { ShowsValue self.now.pass.now result.now }
        ensures seen { K.history result.now ≡ (view_of self.now.pass.now).seen }
        ensures opened { StartsWith (K.history result.now) (opening_of K.history self.now.lock.now) }
        ensures legal { let v = view_of self.now.pass.now in
            Legal K.maker (length (opening_of K.history self.now.lock.now)) (K.history result.now)
            (number_of self.now.pass.now) v.seen v.made }
    {
        match &self.pass.share {
            Some(share) => share,
            None => unreachable!(),
        }
    }

    /// Applies the act to the value, and so appends one record of the pass to the history; then all lanes are put
    /// back. Without a record, and with the same history, where the act wants memory (Memory), which comes only where
    /// the kept type says that it may be wanting, or a share of the value is still held elsewhere (Shared).
    pub fn commit(self, act: &K::Act) -> Result<K::Stamp, CommitError>
        requires writing { IsWriting self.lock.now self.pass.now }
        requires may { (value : K) → ShowsValue self.pass.now value → K.may value act.now }
        ensures same_pass { SamePass self.entry.pass.now self.exit.1.0.now }
        ensures blank { IsBlank (view_of self.exit.1.0.now) }
        ensures commits { IfOk result (λ stamp. Commits self.entry.pass.now act.now stamp self.exit.1.0.now) }
        ensures memory { IfErr result (λ error. (value : K) × ShowsValue self.entry.pass.now value
            × MayWant K.wants value act.now error) }
        ensures err { OnErr result (KeepsHistory (view_of self.entry.pass.now) (view_of self.exit.1.0.now)) }
        ensures met { MetNone (view_of self.entry.pass.now) (view_of self.exit.1.0.now) }
        ensures had { HadNone (view_of self.entry.pass.now) (view_of self.exit.1.0.now) }
    {
        let WriteGuard { lock, pass } = self;
        lock.finish_write(pass, act)
    }

    /// Puts all lanes back without a record.
    pub fn give_back(self)
        requires { IsWriting self.lock.now self.pass.now }
        ensures same_pass { SamePass self.entry.pass.now self.exit.1.0.now }
        ensures history { KeepsHistory (view_of self.entry.pass.now) (view_of self.exit.1.0.now) }
        ensures met { MetNone (view_of self.entry.pass.now) (view_of self.exit.1.0.now) }
        ensures had { HadNone (view_of self.entry.pass.now) (view_of self.exit.1.0.now) }
        ensures blank { IsBlank (view_of self.exit.1.0.now) }
    {
        let WriteGuard { lock, pass } = self;
        lock.stop_write(pass);
    }

    /// Forgets the guard: the pass keeps its lanes for good.
    pub fn forget(self)
        ensures { self.exit.1.0.now ≡ self.entry.pass.now }
    {
        let WriteGuard { lock: _, pass: _ } = self;
    }
}

impl<'a, K: Kept> Drop for WriteGuard<'a, K> {
    ghost use Rattle.lane_lock.specs.Outcomes.{HadNone, KeepsHistory, MetNone};
    ghost use Rattle.lane_lock.specs.Passes.{SamePass, IsWriting, view_of};
    ghost use Rattle.lane_lock.specs.Views.{IsBlank};

    fn drop(self)
        requires { IsWriting self.lock.now self.pass.now }
        ensures same_pass { SamePass self.entry.pass.now self.exit.1.0.now }
        ensures history { KeepsHistory (view_of self.entry.pass.now) (view_of self.exit.1.0.now) }
        ensures met { MetNone (view_of self.entry.pass.now) (view_of self.exit.1.0.now) }
        ensures had { HadNone (view_of self.entry.pass.now) (view_of self.exit.1.0.now) }
        ensures blank { IsBlank (view_of self.exit.1.0.now) }
    {
        let WriteGuard { lock, pass } = self;
        lock.stop_write(pass);
    }
}
