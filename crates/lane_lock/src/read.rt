//! Taking a lane to read, and putting it back.

ghost use Rattle.std.specs.Prelude.{ℕ, ◌<◌, IfErr, OnOk};
ghost use Rattle.lane_lock.specs.Outcomes.{OnlySees, KeepsHistory, MetNone, HadLane, HadNone, RefusesRead};
ghost use Rattle.lane_lock.specs.Passes.{Owns, SamePass, IsReading, view_of};
ghost use Rattle.lane_lock.specs.Rule.{Names};
ghost use Rattle.lane_lock.specs.Views.{IsBlank};

use crate::kept::Kept;
use crate::lock::LaneLock;
use crate::pass::Pass;
use crate::refusal::{Busy, NotNow};
use crate::steps::{exchange, put_back_last, put_back_with, take_to_read};
use iofd_words::PassNo;

// The pass that a lane's word names.
pub(crate) fn holder_of(word: u64) -> PassNo
    requires { (q : ℕ) × (q < 1024) × Names q word }
    ensures { Names result.0 word }
{
    PassNo(((word - 1) / 2) as u16)
}

impl<K: Kept> LaneLock<K> {
    // Takes the lane of the pass, and the share from its slot.
    pub(crate) fn start_read(&self, pass: &mut Pass<K>) -> Result<(), NotNow>
        requires { Owns self.now pass.old }
        ensures same { SamePass pass.old pass.new }
        ensures sees { OnlySees (view_of pass.old) (view_of pass.new) }
        ensures reading { OnOk result (IsReading pass.new) }
        ensures met { OnOk result (MetNone (view_of pass.old) (view_of pass.new)) }
        ensures had { OnOk result (HadLane (view_of pass.old) (view_of pass.new)) }
        ensures refused { IfErr result (λ e. RefusesRead (view_of pass.old) (view_of pass.new) pass.old.lane e) }
    {
        let lanes = &self.table.shared;
        let word = 2 * u64::from(pass.number) + 1;
        let found = take_to_read(lanes, &mut pass.seat, pass.lane, word);
        if found != 0 {
            return Err(NotNow::Busy(Busy {
                lane: pass.lane,
                holder: holder_of(found),
            }));
        }
        match exchange(lanes, &mut pass.seat, pass.lane, None) {
            None => {
                put_back_last(lanes, &mut pass.seat, pass.lane);
                Err(NotNow::Shared)
            }
            Some(share) => {
                pass.seen = share.len();
                pass.share = Some(share);
                Ok(())
            }
        }
    }

    // Puts the share back into the lane of the pass, and the lane back.
    pub(crate) fn stop_read(&self, pass: &mut Pass<K>)
        requires owned { Owns self.now pass.old }
        requires reading { IsReading pass.old }
        ensures same { SamePass pass.old pass.new }
        ensures history { KeepsHistory (view_of pass.old) (view_of pass.new) }
        ensures met { MetNone (view_of pass.old) (view_of pass.new) }
        ensures had { HadNone (view_of pass.old) (view_of pass.new) }
        ensures blank { IsBlank (view_of pass.new) }
    {
        let share = pass.share.take();
        put_back_with(&self.table.shared, &mut pass.seat, pass.lane, share);
    }
}
