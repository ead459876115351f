//! The guard that shows the value to a reader.

ghost use Rattle.lane_lock.specs.Passes.{Owns};

use crate::kept::Kept;
use crate::lock::LaneLock;
use crate::pass::Pass;
use crate::refusal::NotNow;

/// Shows the value to one pass, which has its lane meanwhile. No writer changes the value as long as the guard
/// stands.
pub struct ReadGuard<'a, K: Kept> {
    pub(crate) lock: &'a LaneLock<K>,
    pub(crate) pass: &'a mut Pass<K>,
    ghost owned: { Owns lock.now pass.now },
}

impl<K: Kept> Pass<K> {
    ghost use Rattle.std.specs.Borrow.{sem};
    ghost use Rattle.std.specs.Prelude.{◌≡◌, IfOk};
    ghost use Rattle.lane_lock.specs.Outcomes.{HadLane, MetNone, OnlySees};
    ghost use Rattle.lane_lock.specs.Passes.{Owns, SamePass, IsReading, view_of};
    ghost use Rattle.lane_lock.specs.ReadGuards.{RestsUnlessReading};

    /// As `LaneLock::try_read`.
    pub fn try_read<'a>(&'a mut self, lock: &'a LaneLock<K>) -> Result<ReadGuard<'a, K>, NotNow>
        requires { Owns lock.now self.old }
        ensures* refused { sem 𝓛
            (RestsUnlessReading K.row K.Act.row K.Stamp.row K.Record.row K.Kept self.entry result) }
        ensures same_reference { IfOk result (λ g. g.pass.ghost_name ≡ self.entry.ghost_name) }
        ensures lock { IfOk result (λ g. g.lock.now ≡ lock.now) }
        ensures same_pass { IfOk result (λ g. SamePass self.old g.pass.now) }
        ensures reading { IfOk result (λ g. IsReading g.pass.now) }
        ensures sees { IfOk result (λ g. OnlySees (view_of self.old) (view_of g.pass.now)) }
        ensures met { IfOk result (λ g. MetNone (view_of self.old) (view_of g.pass.now)) }
        ensures had { IfOk result (λ g. HadLane (view_of self.old) (view_of g.pass.now)) }
    {
        lock.start_read(self)?;
        Ok(ReadGuard { lock, pass: self })
    }
}

impl<'a, K: Kept> ReadGuard<'a, K> {
    ghost use Rattle.std.specs.Prelude.{◌≡◌, length};
    ghost use Rattle.lane_lock.specs.History.{Legal, StartsWith};
    ghost use Rattle.lane_lock.specs.Outcomes.{HadNone, KeepsHistory, MetNone};
    ghost use Rattle.lane_lock.specs.Passes.{SamePass, IsReading, ShowsValue, view_of, number_of, opening_of};
    ghost use Rattle.lane_lock.specs.Views.{IsBlank};

    /// The value. Its history begins with the opening value's, is all that the pass has seen, and is legal for the
    /// pass.
    pub fn get(&self) -> &K
        requires { IsReading self.now.pass.now }
        ensures value { ShowsValue self.now.pass.now result.now }
        ensures seen { K.history result.now ≡ (view_of self.now.pass.now).seen }
        ensures opened { StartsWith (K.history result.now) (opening_of K.history self.now.lock.now) }
        ensures legal { let v = view_of self.now.pass.now in
            Legal K.maker (length (opening_of K.history self.now.lock.now)) (K.history result.now)
            (number_of self.now.pass.now) v.seen v.made }
    {
        match &self.pass.share {
            Some(share) => share,
            None => unreachable!(),
        }
    }

    /// Puts the lane back.
    pub fn end(self)
        requires { IsReading self.pass.now }
        ensures same_pass { SamePass self.entry.pass.now self.exit.1.0.now }
        ensures history { KeepsHistory (view_of self.entry.pass.now) (view_of self.exit.1.0.now) }
        ensures met { MetNone (view_of self.entry.pass.now) (view_of self.exit.1.0.now) }
        ensures had { HadNone (view_of self.entry.pass.now) (view_of self.exit.1.0.now) }
        ensures blank { IsBlank (view_of self.exit.1.0.now) }
    {
        let ReadGuard { lock, pass } = self;
        lock.stop_read(pass);
    }

    /// Forgets the guard: the pass keeps its lane for good.
    pub fn forget(self)
        ensures { self.exit.1.0.now ≡ self.entry.pass.now }
    {
        let ReadGuard { lock: _, pass: _ } = self;
    }
}

impl<'a, K: Kept> Drop for ReadGuard<'a, K> {
    ghost use Rattle.lane_lock.specs.Outcomes.{HadNone, KeepsHistory, MetNone};
    ghost use Rattle.lane_lock.specs.Passes.{SamePass, IsReading, view_of};
    ghost use Rattle.lane_lock.specs.Views.{IsBlank};

    fn drop(self)
        requires { IsReading self.pass.now }
        ensures same_pass { SamePass self.entry.pass.now self.exit.1.0.now }
        ensures history { KeepsHistory (view_of self.entry.pass.now) (view_of self.exit.1.0.now) }
        ensures met { MetNone (view_of self.entry.pass.now) (view_of self.exit.1.0.now) }
        ensures had { HadNone (view_of self.entry.pass.now) (view_of self.exit.1.0.now) }
        ensures blank { IsBlank (view_of self.exit.1.0.now) }
    {
        let ReadGuard { lock, pass } = self;
        lock.stop_read(pass);
    }
}
