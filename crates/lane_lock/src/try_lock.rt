//! Reading and writing without waiting. A caller that goes on with its pass after a refusal calls the forms of
//! `Pass`: the check tells a caller what a lent value is afterwards where it is the first parameter.

use crate::kept::Kept;
use crate::lock::LaneLock;
use crate::pass::Pass;
use crate::read_guard::ReadGuard;
use crate::refusal::{Busy, NotNow};
use crate::write_guard::WriteGuard;

impl<K: Kept> LaneLock<K> {
    ghost use Rattle.std.specs.Borrow.{sem};
    ghost use Rattle.std.specs.Prelude.{◌≡◌, IfOk};
    ghost use Rattle.lane_lock.specs.Outcomes.{HadAll, HadLane, MetNone, OnlySees};
    ghost use Rattle.lane_lock.specs.Passes.{Owns, SamePass, IsReading, IsWriting, view_of, lanes_of};
    ghost use Rattle.lane_lock.specs.ReadGuards.{RestsUnlessReading};
    ghost use Rattle.lane_lock.specs.WriteGuards.{RestsUnlessWriting};

    /// Takes the lane of the pass to read, without waiting. Refused as Busy where the lane is held, and as Shared
    /// where it is empty: then nothing was seen, and the pass holds what it held. Where it answers a guard it had a
    /// share to read once, and never took the last lane to write.
    pub fn try_read<'a>(&'a self, pass: &'a mut Pass<K>) -> Result<ReadGuard<'a, K>, NotNow>
        requires { Owns self.now pass.old }
        ensures* refused { sem 𝓛
            (RestsUnlessReading K.row K.Act.row K.Stamp.row K.Record.row K.Kept pass.entry result) }
        ensures same_reference { IfOk result (λ g. g.pass.ghost_name ≡ pass.entry.ghost_name) }
        ensures lock { IfOk result (λ g. g.lock.now ≡ self.now) }
        ensures same_pass { IfOk result (λ g. SamePass pass.old g.pass.now) }
        ensures reading { IfOk result (λ g. IsReading g.pass.now) }
        ensures sees { IfOk result (λ g. OnlySees (view_of pass.old) (view_of g.pass.now)) }
        ensures met { IfOk result (λ g. MetNone (view_of pass.old) (view_of g.pass.now)) }
        ensures had { IfOk result (λ g. HadLane (view_of pass.old) (view_of g.pass.now)) }
    {
        pass.try_read(self)
    }

    /// Takes all lanes to write, from 0 upwards, without waiting. Refused as Busy at the first lane that is held:
    /// then those that were taken are put back, and the pass holds what it held. Where it answers a guard it took the
    /// last lane once, and never had a share to read.
    pub fn try_write<'a>(&'a self, pass: &'a mut Pass<K>) -> Result<WriteGuard<'a, K>, Busy>
        requires { Owns self.now pass.old }
        ensures* refused { sem 𝓛
            (RestsUnlessWriting K.row K.Act.row K.Stamp.row K.Record.row K.Kept
            (lanes_of self.now) pass.entry result) }
        ensures same_reference { IfOk result (λ g. g.pass.ghost_name ≡ pass.entry.ghost_name) }
        ensures lock { IfOk result (λ g. g.lock.now ≡ self.now) }
        ensures same_pass { IfOk result (λ g. SamePass pass.old g.pass.now) }
        ensures writing { IfOk result (λ g. IsWriting self.now g.pass.now) }
        ensures sees { IfOk result (λ g. OnlySees (view_of pass.old) (view_of g.pass.now)) }
        ensures met { IfOk result (λ g. MetNone (view_of pass.old) (view_of g.pass.now)) }
        ensures had { IfOk result (λ g. HadAll (view_of pass.old) (view_of g.pass.now)) }
    {
        pass.try_write(self)
    }
}
