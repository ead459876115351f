//! The lanes above lane 0, which a writer takes upwards and puts back downwards.

ghost use Rattle.std.specs.Prelude.{◌≡◌, ◌≢◌, ℕ, ◌+◌, ◌-◌, ◌*◌, ◌<◌};
ghost use Rattle.std.specs.Prelude.{◌≤◌, true, [], ◌∷◌, None, length, drop};
ghost use Rattle.std.specs.Prelude.{slice_index, MatchOption};
ghost use Rattle.lane_lock.specs.Hands.{Anything, Climbed, Dropped, Lowered, Shows, Stack};
ghost use Rattle.lane_lock.specs.Outcomes.{Stops};
ghost use Rattle.lane_lock.specs.Rule.{place};
ghost use Rattle.lane_lock.specs.Steps.{SameSeat};

use crate::kept::Kept;
use crate::read::holder_of;
use crate::refusal::Busy;
use crate::steps::{exchange, put_back_pinned, take_to_write};
use crate::table::{PassSeat, Share, SharedLanes};
use std::sync::Arc;

// Takes the lanes 1 to `count - 1` for the pass, which has lane 0, by its word. Some where one was met held: then
// those below it were taken.
pub(crate) fn take_upper<K: Kept>(
    lanes: &SharedLanes<K>,
    seat: &mut PassSeat<K>,
    count: u16,
    word: u64,
) -> Option<Busy>
    requires table { (seat.old.table_id ≡ lanes.now.table_id) × (0 < count) × (place count ≡ lanes.now.table_id.words)
        × (place lanes.now.key.lanes ≡ lanes.now.table_id.words) }
    requires pass { (seat.old.me.0.stands ≡ true) × (length seat.old.me.0.held ≡ count)
        × (seat.old.me.0.pin ≢ 0)
        × (word ≡ 2 * seat.old.me.0.number + 2) }
    ensures same_seat { SameSeat seat.old seat.new }
    ensures told { MatchOption result (Climbed K.history seat.old.me word (count - 1) seat.new.me) (λ b.
        (b.lane < count) × Stops K.history seat.old.me word b seat.new.me) }
{
    for lane in 1..count {
        let found = take_to_write(lanes, seat, lane, word);
        if found != 0 {
            return Some(Busy {
                lane,
                holder: holder_of(found),
            });
        }
    }
    None
}

// Puts the lanes `count - 1` down to 1 back, each with what its slot had.
pub(crate) fn put_back_upper<K: Kept>(lanes: &SharedLanes<K>, seat: &mut PassSeat<K>, count: u16)
    requires table { (seat.old.table_id ≡ lanes.now.table_id) × (0 < count) × (place count ≤ lanes.now.table_id.words) }
    requires pass { (seat.old.me.0.stands ≡ true) × (seat.old.me.0.pin ≢ 0)
        × ((k : ℕ) → 0 < k → k < count →
        (slice_index seat.old.me.0.held k ≢ 0) × (seat.old.me.0.pin ≢ k + 1)) }
    requires stack { Stack (Shows K.history seat.old.me.0.seen) (count - 1) seat.old.me.1
        (drop (count - 1) seat.old.me.1) }
    ensures same_seat { SameSeat seat.old seat.new }
    ensures lowered { Lowered (Shows K.history seat.old.me.0.seen) (count - 1) 0 seat.old.me seat.new.me }
{
    let mut lane = count;
    while lane > 1 {
        lane -= 1;
        put_back_pinned(lanes, seat, lane);
    }
}

// Another share of the value, or none where there is none or it is refused.
fn another<K: Kept>(share: &Option<Share<K>>) -> Option<Share<K>>
    ensures { (h : _) → Shows K.history h share.now → Shows K.history h result }
{
    match share {
        Some(share) => Arc::try_clone(share).ok(),
        None => None,
    }
}

// Puts the lanes `count - 1` down to `low + 1` back, each with another share of what the pass has seen or with none,
// while lane `low` pins it.
pub(crate) fn refill<K: Kept>(
    lanes: &SharedLanes<K>,
    seat: &mut PassSeat<K>,
    share: &Option<Share<K>>,
    low: u16,
    count: u16,
)
    requires table { (seat.old.table_id ≡ lanes.now.table_id) × (low < count)
        × (place count ≤ lanes.now.table_id.words) }
    requires pass { (seat.old.me.0.stands ≡ true) × (seat.old.me.0.pin ≡ low + 1)
        × ((k : ℕ) → low < k → k < count → slice_index seat.old.me.0.held k ≢ 0) }
    requires stack { Stack Anything (count - 1) seat.old.me.1 (drop (count - 1) seat.old.me.1) }
    requires share { Shows K.history seat.old.me.0.seen share.now }
    ensures same_seat { SameSeat seat.old seat.new }
    ensures lowered { Lowered Anything (count - 1) low seat.old.me seat.new.me }
{
    let mut lane = count;
    while lane > low + 1 {
        lane -= 1;
        drop(exchange(lanes, seat, lane, another(share)));
        put_back_pinned(lanes, seat, lane);
    }
}

// Drops the shares of the lanes `count - 1` down to 1, and brings lane 0 to the front.
pub(crate) fn drop_shares<K: Kept>(lanes: &SharedLanes<K>, seat: &mut PassSeat<K>, count: u16)
    requires table { (seat.old.table_id ≡ lanes.now.table_id) × (0 < count) }
    requires stack { Stack Anything (count - 1) seat.old.me.1 ((0, None) ∷ []) }
    ensures same_seat { SameSeat seat.old seat.new }
    ensures view { seat.new.me.0 ≡ seat.old.me.0 }
    ensures dropped { Dropped (count - 1) 0 seat.new.me.1 }
{
    let mut lane = count;
    while lane > 1 {
        lane -= 1;
        drop(exchange(lanes, seat, lane, None));
        seat.turn();
    }
}
