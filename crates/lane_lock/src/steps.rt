//! The steps on the table, each by a pass's own seat. There are no others.

ghost use Rattle.std.specs.Prelude.{◌≡◌, ◌≢◌, ℕ, ◌+◌, ◌-◌, ◌*◌, ◌<◌, true, false};
ghost use Rattle.std.specs.Prelude.{[], ◌∷◌, length, slice_index};
ghost use Rattle.atomic_table.specs.Table.{rest};
ghost use Rattle.lane_lock.specs.Rule.{place};
ghost use Rattle.lane_lock.specs.Steps.{SameSeat, took, Offers, IsShare, committed, Writes};
ghost use Rattle.lane_lock.specs.Views.{freed, HasApart, IsBlank, without_one, first_alone, note, learned, gathered};

use crate::kept::Kept;
use crate::plays::{Commit, Deal, End, Gather, Learn, Return, TakeToRead, TakeToWrite, Tell};
use crate::table::{PassSeat, Share, SharedLanes, place};

// Takes a lane for the pass to read, by its word. The answer is 0 where it was at home, and else the word found.
pub(crate) fn take_to_read<K: Kept>(
    lanes: &SharedLanes<K>,
    seat: &mut PassSeat<K>,
    lane: u16,
    word: u64,
) -> u64
    requires table { (seat.old.table_id ≡ lanes.now.table_id) × (place lane < lanes.now.table_id.words)
        × (place lanes.now.key.lanes ≡ lanes.now.table_id.words) }
    requires pass { (seat.old.me.0.stands ≡ true) × (word ≡ 2 * seat.old.me.0.number + 1) }
    ensures same_seat { SameSeat seat.old seat.new }
    ensures told { took true K.history K.maker lane word seat.old.me result seat.new.me }
{
    lanes.compare_exchange::<TakeToRead<K>>(seat, place(lane), 0, word)
}

// The same to write.
pub(crate) fn take_to_write<K: Kept>(
    lanes: &SharedLanes<K>,
    seat: &mut PassSeat<K>,
    lane: u16,
    word: u64,
) -> u64
    requires table { (seat.old.table_id ≡ lanes.now.table_id) × (place lane < lanes.now.table_id.words)
        × (place lanes.now.key.lanes ≡ lanes.now.table_id.words) }
    requires pass { (seat.old.me.0.stands ≡ true) × (word ≡ 2 * seat.old.me.0.number + 2) }
    ensures same_seat { SameSeat seat.old seat.new }
    ensures told { took false K.history K.maker lane word seat.old.me result seat.new.me }
{
    lanes.compare_exchange::<TakeToWrite<K>>(seat, place(lane), 0, word)
}

// Exchanges what the slot has of the lane that was taken last.
pub(crate) fn exchange<K: Kept>(
    lanes: &SharedLanes<K>,
    seat: &mut PassSeat<K>,
    lane: u16,
    share: Option<Share<K>>,
) -> Option<Share<K>>
    requires { (seat.old.table_id ≡ lanes.now.table_id)
        × ((old : _) × (seat.old.me.1 ≡ (place lane, old) ∷ rest seat.old.me.1)) }
    ensures { (seat.new.table_id ≡ seat.old.table_id) × (seat.new.id ≡ seat.old.id)
        × (seat.old.me.1 ≡ (place lane, result) ∷ rest seat.old.me.1)
        × (seat.new.me ≡ (seat.old.me.0, (place lane, share) ∷ rest seat.old.me.1)) }
{
    lanes.exchange(seat, place(lane), share)
}

// Puts the last lane back, with a share of what the pass has seen or with none.
pub(crate) fn put_back_last<K: Kept>(lanes: &SharedLanes<K>, seat: &mut PassSeat<K>, lane: u16)
    requires table { (seat.old.table_id ≡ lanes.now.table_id) × (place lane < lanes.now.table_id.words) }
    requires pass { (seat.old.me.0.stands ≡ true) × (slice_index seat.old.me.0.held lane ≢ 0) }
    requires share { Offers K.history seat.old.me.0 lane seat.old.me.1 }
    ensures same_seat { SameSeat seat.old seat.new }
    ensures told { seat.new.me ≡ (freed seat.old.me.0 lane 0, rest seat.old.me.1) }
{
    lanes.store::<End<K>>(seat, place(lane), 0)
}

// Puts lane 0 back with one more record, while the pass holds every lane: the one step by which the history grows.
pub(crate) fn put_back_with_record<K: Kept>(lanes: &SharedLanes<K>, seat: &mut PassSeat<K>)
    requires table { (seat.old.table_id ≡ lanes.now.table_id) × (0 < lanes.now.table_id.words)
        × (place lanes.now.key.lanes ≡ lanes.now.table_id.slots) }
    requires pass { (seat.old.me.0.stands ≡ true) × (seat.old.me.0.others ≡ [])
        × (length seat.old.me.0.held ≡ lanes.now.key.lanes)
        × ((k : ℕ) → k < lanes.now.key.lanes → slice_index seat.old.me.0.held k ≢ 0)
        × (seat.old.me.0.pin ≢ 0) }
    requires share { Writes K.history K.maker seat.old.me }
    ensures same_seat { SameSeat seat.old seat.new }
    ensures told { committed K.history lanes.now.key.lanes seat.old.me seat.new.me }
{
    lanes.store::<Commit<K>>(seat, 0, 0)
}

// Cuts the first further pass off the view, into a seat of its own.
pub(crate) fn split_off_pass<K: Kept>(lanes: &SharedLanes<K>, seat: &mut PassSeat<K>) -> PassSeat<K>
    requires table { (seat.old.table_id ≡ lanes.now.table_id) × (0 < lanes.now.table_id.words) }
    requires pass { (seat.old.me.0.stands ≡ true) × HasApart seat.old.me.0 }
    ensures kept { SameSeat seat.old seat.new × (seat.new.me ≡ (without_one seat.old.me.0, seat.old.me.1)) }
    ensures dealt { (result.table_id ≡ seat.old.table_id) × (result.me ≡ (first_alone seat.old.me.0, [])) }
{
    lanes.split_seat::<Deal>(seat)
}

// Tells one pass what another has seen.
pub(crate) fn tell<K: Kept>(lanes: &SharedLanes<K>, from: &mut PassSeat<K>, to: &mut PassSeat<K>)
    requires table { (from.old.table_id ≡ lanes.now.table_id) × (to.old.table_id ≡ lanes.now.table_id)
        × (0 < lanes.now.table_id.words) }
    requires pass { to.old.me.0.stands ≡ true }
    ensures from { SameSeat from.old from.new × (from.new.me ≡ from.old.me) }
    ensures to { SameSeat to.old to.new × (to.new.me ≡ (learned to.old.me.0 (note from.old.me.0), to.old.me.1)) }
{
    let said = lanes.split_seat::<Tell>(from);
    lanes.join_seat::<Learn>(to, said);
}

// Takes another pass into the view.
pub(crate) fn gather<K: Kept>(lanes: &SharedLanes<K>, seat: &mut PassSeat<K>, other: PassSeat<K>)
    requires table { (seat.old.table_id ≡ lanes.now.table_id) × (other.table_id ≡ lanes.now.table_id)
        × (0 < lanes.now.table_id.words) × (other.me.1 ≡ []) }
    requires pass { (other.me.0.stands ≡ true) × (other.me.0.others ≡ []) × IsBlank other.me.0 }
    ensures { SameSeat seat.old seat.new × (seat.new.me ≡ (gathered seat.old.me.0 other.me.0, seat.old.me.1)) }
{
    lanes.join_seat::<Gather>(seat, other);
}

// Puts a lane back, while another still pins what the pass has seen: with a share of that, or with none.
pub(crate) fn put_back_pinned<K: Kept>(lanes: &SharedLanes<K>, seat: &mut PassSeat<K>, lane: u16)
    requires table { (seat.old.table_id ≡ lanes.now.table_id) × (place lane < lanes.now.table_id.words) }
    requires pass { (seat.old.me.0.stands ≡ true) × (slice_index seat.old.me.0.held lane ≢ 0)
        × (seat.old.me.0.pin ≢ 0 → seat.old.me.0.pin - 1 ≢ lane) }
    requires share { Offers K.history seat.old.me.0 lane seat.old.me.1 }
    ensures same_seat { SameSeat seat.old seat.new }
    ensures told { seat.new.me ≡ (freed seat.old.me.0 lane seat.old.me.0.pin, rest seat.old.me.1) }
{
    lanes.store::<Return<K>>(seat, place(lane), 0)
}

// Puts the last lane back with this in its slot.
pub(crate) fn put_back_with<K: Kept>(
    lanes: &SharedLanes<K>,
    seat: &mut PassSeat<K>,
    lane: u16,
    share: Option<Share<K>>,
)
    requires table { (seat.old.table_id ≡ lanes.now.table_id) × (place lane < lanes.now.table_id.words) }
    requires pass { (seat.old.me.0.stands ≡ true) × (slice_index seat.old.me.0.held lane ≢ 0) }
    requires hand { (old : _) × (seat.old.me.1 ≡ (place lane, old) ∷ rest seat.old.me.1) }
    requires share { IsShare K.history seat.old.me.0 lane share }
    ensures same_seat { SameSeat seat.old seat.new }
    ensures told { seat.new.me ≡ (freed seat.old.me.0 lane 0, rest seat.old.me.1) }
{
    drop(exchange(lanes, seat, lane, share));
    put_back_last(lanes, seat, lane);
}
