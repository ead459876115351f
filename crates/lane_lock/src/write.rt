//! Taking all lanes to write, and putting them back with one more record or without.

ghost use Rattle.std.specs.Prelude.{◌≡◌, ◌≢◌, ℕ, ◌-◌, ◌<◌, ◌++◌, ◌∷◌, [], true};
ghost use Rattle.std.specs.Prelude.{length, slice_index, None, IfOk, IfErr};
ghost use Rattle.std.specs.Prelude.{OnOk, OnErr};
ghost use Rattle.std.specs.Arc.{arc_value};
ghost use Rattle.atomic_table.specs.Table.{rest};
ghost use Rattle.lane_lock.specs.Hands.{AllBack, Anything, Stack};
ghost use Rattle.lane_lock.specs.Outcomes.{OnlySees, KeepsHistory, MetNone, HadAll, HadNone, RefusesWrite};
ghost use Rattle.lane_lock.specs.Passes.{Owns, SamePass, IsWriting, MayWant, ShowsValue, Commits, view_of};
ghost use Rattle.lane_lock.specs.Rule.{place};
ghost use Rattle.lane_lock.specs.Views.{IsBlank};
ghost use Rattle.lane_lock.specs.Steps.{SameSeat};

use crate::kept::Kept;
use crate::lock::LaneLock;
use crate::pass::Pass;
use crate::read::holder_of;
use crate::refusal::{Busy, CommitError};
use crate::steps::{exchange, put_back_with, put_back_with_record, take_to_write};
use crate::table::{PassSeat, Share, SharedLanes};
use crate::upper_lanes::{drop_shares, put_back_upper, refill, take_upper};
use iofd_words::PassNo;
use std::sync::Arc;

// Applies the act to the value, where no other share of it is held.
fn apply_alone<K: Kept>(
    share: &mut Share<K>,
    pass: PassNo,
    act: &K::Act,
) -> Result<K::Stamp, CommitError>
    requires { K.may (arc_value share.old) act.now }
    ensures record { IfOk result (λ _. (r : K.Record)
        × (K.history (arc_value share.new) ≡ K.history (arc_value share.old) ++ r ∷ [])
        × (K.maker r ≡ pass.0)) }
    ensures gives { IfOk result (λ stamp.
        K.gives (arc_value share.old) pass.0 act.now stamp (arc_value share.new)) }
    ensures memory { IfErr result (MayWant K.wants (arc_value share.old) act.now) }
    ensures err { OnErr result (K.history (arc_value share.new) ≡ K.history (arc_value share.old)) }
{
    let Some(value) = Arc::get_mut(share) else {
        return Err(CommitError::Shared);
    };
    match value.apply(pass, act) {
        Ok(stamp) => Ok(stamp),
        Err(error) => Err(CommitError::Memory(error)),
    }
}

// Puts all lanes back with one more record: lane 0 first, with the share, and then each other with another share or
// with none. Lane 1 comes last, since it pins what the pass has seen meanwhile.
fn put_back_grown<K: Kept>(
    lanes: &SharedLanes<K>,
    seat: &mut PassSeat<K>,
    count: u16,
    share: Share<K>,
)
    requires table { (seat.old.table_id ≡ lanes.now.table_id) × (0 < count) × (place count ≡ lanes.now.table_id.words)
        × (place count ≡ lanes.now.table_id.slots) × (count ≡ lanes.now.key.lanes) }
    requires pass { (seat.old.me.0.stands ≡ true) × (seat.old.me.0.others ≡ [])
        × (length seat.old.me.0.held ≡ count) × ((k : ℕ) → k < count → slice_index seat.old.me.0.held k ≢ 0)
        × (seat.old.me.0.pin ≡ 1) }
    requires hand { (seat.old.me.1 ≡ (0, None) ∷ rest seat.old.me.1)
        × Stack Anything (count - 1) (rest seat.old.me.1) [] }
    requires share { (r : K.Record) × (K.history (arc_value share) ≡ seat.old.me.0.seen ++ r ∷ [])
        × (K.maker r ≡ seat.old.me.0.number) }
    ensures same_seat { SameSeat seat.old seat.new }
    ensures back { AllBack seat.old.me (K.history (arc_value share)) seat.new.me }
{
    let spare = if count > 1 {
        Arc::try_clone(&share).ok()
    } else {
        None
    };
    drop(exchange(lanes, seat, 0, Some(share)));
    put_back_with_record(lanes, seat);
    if count > 1 {
        refill(lanes, seat, &spare, 1, count);
        put_back_with(lanes, seat, 1, spare);
    }
}

// Puts all lanes back without a record, after their slots were emptied: lane 0 with the share, after each other with
// another share or with none.
fn put_back_emptied<K: Kept>(
    lanes: &SharedLanes<K>,
    seat: &mut PassSeat<K>,
    count: u16,
    share: Share<K>,
)
    requires table { (seat.old.table_id ≡ lanes.now.table_id) × (0 < count) × (place count ≡ lanes.now.table_id.words) }
    requires pass { (seat.old.me.0.stands ≡ true) × (length seat.old.me.0.held ≡ count)
        × ((k : ℕ) → k < count → slice_index seat.old.me.0.held k ≢ 0) × (seat.old.me.0.pin ≡ 1) }
    requires hand { (seat.old.me.1 ≡ (0, None) ∷ rest seat.old.me.1)
        × Stack Anything (count - 1) (rest seat.old.me.1) [] }
    requires share { K.history (arc_value share) ≡ seat.old.me.0.seen }
    ensures same_seat { SameSeat seat.old seat.new }
    ensures back { AllBack seat.old.me seat.old.me.0.seen seat.new.me }
{
    seat.turn();
    let share = Some(share);
    refill(lanes, seat, &share, 0, count);
    put_back_with(lanes, seat, 0, share);
}

impl<K: Kept> LaneLock<K> {
    // Takes all lanes, from 0 upwards, and the share from the slot of lane 0. Where one is met held, those that were
    // taken are put back.
    pub(crate) fn start_write(&self, pass: &mut Pass<K>) -> Result<(), Busy>
        requires { Owns self.now pass.old }
        ensures same { SamePass pass.old pass.new }
        ensures sees { OnlySees (view_of pass.old) (view_of pass.new) }
        ensures writing { OnOk result (IsWriting self.now pass.new) }
        ensures met { OnOk result (MetNone (view_of pass.old) (view_of pass.new)) }
        ensures had { OnOk result (HadAll (view_of pass.old) (view_of pass.new)) }
        ensures refused { IfErr result (λ b. RefusesWrite (view_of pass.old) (view_of pass.new) self.now.lanes b) }
    {
        let lanes = &self.table.shared;
        let word = 2 * u64::from(pass.number) + 2;
        let found = take_to_write(lanes, &mut pass.seat, 0, word);
        if found != 0 {
            return Err(Busy {
                lane: 0,
                holder: holder_of(found),
            });
        }
        let Some(share) = exchange(lanes, &mut pass.seat, 0, None) else {
            unreachable!()
        };
        pass.seen = share.len();
        match take_upper(lanes, &mut pass.seat, self.lanes, word) {
            None => {
                pass.share = Some(share);
                Ok(())
            }
            Some(busy) => {
                put_back_upper(lanes, &mut pass.seat, busy.lane);
                put_back_with(lanes, &mut pass.seat, 0, Some(share));
                Err(busy)
            }
        }
    }

    // Puts all lanes back as they were taken.
    pub(crate) fn stop_write(&self, pass: &mut Pass<K>)
        requires owned { Owns self.now pass.old }
        requires writing { IsWriting self.now pass.old }
        ensures same { SamePass pass.old pass.new }
        ensures history { KeepsHistory (view_of pass.old) (view_of pass.new) }
        ensures met { MetNone (view_of pass.old) (view_of pass.new) }
        ensures had { HadNone (view_of pass.old) (view_of pass.new) }
        ensures blank { IsBlank (view_of pass.new) }
    {
        let lanes = &self.table.shared;
        let share = pass.share.take();
        put_back_upper(lanes, &mut pass.seat, self.lanes);
        put_back_with(lanes, &mut pass.seat, 0, share);
    }

    // Applies the act, and puts all lanes back, with its record or, where it makes none, without.
    pub(crate) fn finish_write(
        &self,
        pass: &mut Pass<K>,
        act: &K::Act,
    ) -> Result<K::Stamp, CommitError>
        requires owned { Owns self.now pass.old }
        requires writing { IsWriting self.now pass.old }
        requires may { (value : K) → ShowsValue pass.old value → K.may value act.now }
        ensures same { SamePass pass.old pass.new }
        ensures blank { IsBlank (view_of pass.new) }
        ensures commits { IfOk result (λ stamp. Commits pass.old act.now stamp pass.new) }
        ensures memory { IfErr result (λ error. (value : K) × ShowsValue pass.old value
            × MayWant K.wants value act.now error) }
        ensures err { OnErr result (KeepsHistory (view_of pass.old) (view_of pass.new)) }
        ensures met { MetNone (view_of pass.old) (view_of pass.new) }
        ensures had { HadNone (view_of pass.old) (view_of pass.new) }
    {
        let lanes = &self.table.shared;
        let Some(mut share) = pass.share.take() else {
            unreachable!()
        };
        drop_shares(lanes, &mut pass.seat, self.lanes);
        match apply_alone(&mut share, PassNo(pass.number), act) {
            Ok(stamp) => {
                pass.seen = share.len();
                put_back_grown(lanes, &mut pass.seat, self.lanes, share);
                Ok(stamp)
            }
            Err(error) => {
                put_back_emptied(lanes, &mut pass.seat, self.lanes, share);
                Err(error)
            }
        }
    }
}
