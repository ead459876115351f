//! The end of a lock.

ghost use Rattle.std.specs.Prelude.{◌≡◌, ℕ, ◌<◌, Some, slice_get};
ghost use Rattle.std.specs.Prelude.{MatchBool, IfOk, IfErr};
ghost use Rattle.lane_lock.specs.Ending.{Gathers, HasNumber, IsAbsent, AllIdle, SomeBusy, EndsWith, GivesAllBack};
ghost use Rattle.lane_lock.specs.Passes.{OwnsAll};

use crate::kept::Kept;
use crate::lock::LaneLock;
use crate::pass::Pass;
use crate::refusal::CloseError;
use crate::steps::gather;
use crate::table::{PassSeat, SharedLanes};

// Whether one of the passes has this number.
fn has_pass<K: Kept>(passes: &Vec<Pass<K>>, number: u16) -> bool
    ensures { MatchBool result (HasNumber passes.now.items number) (IsAbsent passes.now.items number) }
{
    for pass in passes {
        if pass.number == number {
            return true;
        }
    }
    false
}

// Whether no guard of one of the passes was forgotten.
fn are_idle<K: Kept>(passes: &Vec<Pass<K>>) -> bool
    ensures { MatchBool result (AllIdle passes.now.items) (SomeBusy passes.now.items) }
{
    for pass in passes {
        if pass.share.is_some() {
            return false;
        }
    }
    true
}

// Whether the passes 0 to `count - 1` are all there.
fn are_all<K: Kept>(passes: &Vec<Pass<K>>, count: u16) -> bool
    ensures { MatchBool result ((n : ℕ) → n < count → HasNumber passes.now.items n) ((n : ℕ) × (n < count)
        × IsAbsent passes.now.items n) }
{
    for number in 0..count {
        if !has_pass(passes, number) {
            return false;
        }
    }
    true
}

// Takes all passes into the view of one seat.
fn gather_all<K: Kept>(
    lanes: &SharedLanes<K>,
    mut seat: PassSeat<K>,
    mut passes: Vec<Pass<K>>,
) -> PassSeat<K>
    requires table { (seat.table_id ≡ lanes.now.table_id) × (0 < lanes.now.table_id.words) }
    requires owned { (i : ℕ) (p : _) → slice_get passes.items i ≡ Some p →
        p.seat.table_id ≡ lanes.now.table_id }
    requires idle { AllIdle passes.items }
    ensures same_seat { result.table_id ≡ seat.table_id }
    ensures gathered { Gathers seat.me.0 passes.items result.me.0 }
{
    while let Some(pass) = passes.pop() {
        gather(lanes, &mut seat, pass.into_seat());
    }
    seat
}

impl<K: Kept> LaneLock<K> {
    /// Ends the lock and gives the value back. Its history is the opening value's and then the records of all
    /// passes, each once and in its pass's order, and no others. Where a pass is missing or one of them still holds
    /// a lane, NotAll hands lock and passes back. Where a share of the value is still held elsewhere, Shared hands
    /// one over, with the same history.
    pub fn close(self, mut passes: Vec<Pass<K>>) -> Result<K, CloseError<K>>
        requires { OwnsAll self passes.items }
        ensures ends { IfOk result (λ value. EndsWith self passes.items (K.history value)) }
        ensures refused { IfErr result (GivesAllBack self passes.items) }
    {
        if !are_idle(&passes) || !are_all(&passes, self.passes) {
            return Err(CloseError::NotAll { lock: self, passes });
        }
        let Some(last) = passes.pop() else {
            unreachable!()
        };
        let seat = gather_all(&self.table.shared, last.into_seat(), passes);
        match self.finish(seat) {
            Ok(value) => Ok(value),
            Err(share) => Err(CloseError::Shared(share)),
        }
    }
}
