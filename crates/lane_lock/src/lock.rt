//! The lock.

ghost use Rattle.std.specs.Prelude.{◌≡◌, ◌<◌, ◌≤◌, MatchResult};
ghost use Rattle.std.specs.Arc.{arc_value};
ghost use Rattle.lane_lock.specs.Closing.{AllHere, Closes};
ghost use Rattle.lane_lock.specs.Rule.{place};

use crate::kept::Kept;
use crate::table::{LaneTable, PassSeat, Share};
use std::sync::Arc;

/// A reader-writer lock of 1 to 64 lanes, whose kept value has one history. A pass that reads takes its own lane, and
/// one that writes takes all lanes, from 0 upwards.
pub struct LaneLock<K: Kept> {
    pub(crate) table: LaneTable<K>,
    pub(crate) lanes: u16,
    pub(crate) passes: u16,
    ghost sized: { (place lanes ≡ table.shared.table_id.words)
        × (table.shared.table_id.slots ≡ table.shared.table_id.words)
        × (table.shared.key.lanes ≡ lanes) },
    ghost counted: { passes ≡ table.shared.key.passes },
    ghost few: { (0 < lanes) × (lanes ≤ 64) × (0 < passes) × (passes ≤ 1024) },
}

// Written out, so that it is proved here alone and not, with all that a lock has, in each crate that drops one.
impl<K: Kept> Drop for LaneLock<K> {
    fn drop(self) {
        let LaneLock {
            table: _,
            lanes: _,
            passes: _,
        } = self;
    }
}

impl<K: Kept> LaneLock<K> {
    // Ends the lock by a seat that has all passes in its view.
    pub(crate) fn finish(self, seat: PassSeat<K>) -> Result<K, Share<K>>
        requires { (seat.table_id ≡ self.table.shared.table_id) × AllHere self.table.shared.key.passes seat.me.0 }
        ensures { MatchResult result (λ value.
            Closes K.history K.maker self.table.shared.key seat.me.0 (K.history value)) (λ share.
            Closes K.history K.maker self.table.shared.key seat.me.0 (K.history (arc_value share))) }
    {
        let LaneLock {
            table,
            lanes: _,
            passes: _,
        } = self;
        let mut closed = table.close_with(seat);
        let first = closed.take(0);
        let mut slot = 1;
        while slot < closed.slot_count() {
            drop(closed.take(slot));
            slot += 1;
        }
        closed.free();
        match first {
            Some(share) => Arc::try_unwrap(share),
            None => unreachable!(),
        }
    }
}
