//! Making a lock and its passes.

ghost use Rattle.std.specs.Prelude.{◌≡◌, ℕ, ◌<◌, ◌≤◌, [], length, slice_index, vec_capacity, IfOk};
ghost use Rattle.std.specs.Prelude.{IfErr, IfSome};
ghost use Rattle.lane_lock.specs.Opening.{AreShares, GivesBack};
ghost use Rattle.lane_lock.specs.Passes.{opening_of, lanes_of, passes_of, IsNew, AllNew};
ghost use Rattle.lane_lock.specs.Rule.{Opens, newcomer, place, starting};
ghost use Rattle.std.specs.Arc.{arc_value};

use crate::kept::Kept;
use crate::lock::LaneLock;
use crate::pass::Pass;
use crate::refusal::NewError;
use crate::steps::split_off_pass;
use crate::table::{LaneTable, PassSeat, Setup, Share, place};
use atomic_table::{Refused, Table};
use std::alloc::{AllocFailed, Global};
use std::snapshot::Snapshot;
use std::sync::Arc;

// The words of the most lanes, all at home.
static HOME_WORDS: [u64; 512] = [0; 512];

// What a slot begins with: another share where it is a lane's, unless that is refused.
fn share_for<K: Kept>(first: &Share<K>, slot: usize) -> Option<Share<K>>
    ensures { IfSome result (λ share. arc_value share ≡ arc_value first.now) }
{
    if slot.is_multiple_of(8) {
        Arc::try_clone(first).ok()
    } else {
        None
    }
}

// The slots of so many lanes: lane 0 has a share, and each other has one unless it was refused. None for want of
// memory.
fn share_out<K: Kept>(alloc: Global, first: &Share<K>, lanes: u16) -> Option<Vec<Option<Share<K>>>>
    requires { 0 < lanes }
    ensures { IfSome result (λ slots. AreShares first.now (place lanes) slots.items) }
{
    let mut slots = Vec::with_capacity(alloc, place(lanes)).ok()?;
    slots.push_reserved(Some(Arc::try_clone(first).ok()?));
    for slot in 1..place(lanes) {
        slots.push_reserved(share_for(first, slot));
    }
    Some(slots)
}

// The table of a new lock, and the seat that stands for all passes.
fn open_table<K: Kept>(
    alloc: Global,
    words: &[u64],
    slots: Vec<Option<Share<K>>>,
    setup: &Setup<K>,
) -> Result<(LaneTable<K>, PassSeat<K>), Refused<Option<Share<K>>, Global>>
    requires { Opens K.history setup.now words.now slots.items }
    ensures { IfOk result (λ t. (t.0.shared.table_id.words ≡ length words.now)
        × (t.0.shared.table_id.slots ≡ length slots.items) × (t.1.table_id ≡ t.0.shared.table_id)
        × (t.1.me ≡ (starting K.history setup.now, [])) × (t.0.shared.key ≡ setup.now)) }
{
    Table::new(alloc, words, slots, setup)
}

// The words of so many lanes, all at home.
fn home_words(lanes: u16) -> &'static [u64]
    requires { lanes ≤ 64 }
    ensures { (length result.now ≡ place lanes) × ((k : ℕ) → slice_index result.now k ≡ 0) }
{
    &HOME_WORDS[..place(lanes)]
}

// A pass that has seen and made nothing.
fn new_pass<K: Kept>(lock: &LaneLock<K>, seat: PassSeat<K>, number: u16) -> Pass<K>
    requires { (seat.table_id ≡ lock.now.table.shared.table_id)
        × (seat.me ≡ (newcomer number (opening_of K.history lock.now) lock.now.passes lock.now.lanes [], [])) }
    ensures { IsNew lock.now number result }
{
    Pass {
        seat,
        number,
        lane: number % lock.lanes,
        seen: 0,
        share: None,
    }
}

// Gives each pass a seat of its own. The first seat stands for the last pass.
fn deal_passes<K: Kept>(
    lock: &LaneLock<K>,
    mut seat: PassSeat<K>,
    mut dealt: Vec<Pass<K>>,
) -> Vec<Pass<K>>
    requires seat { (seat.table_id ≡ lock.now.table.shared.table_id)
        × (seat.me ≡ (starting K.history lock.now.table.shared.key, [])) }
    requires room { (dealt.items ≡ []) × (lock.now.passes ≤ vec_capacity dealt) }
    ensures { AllNew lock.now lock.now.passes result.items }
{
    let last = lock.passes - 1;
    for number in 0..last {
        let cut = split_off_pass(&lock.table.shared, &mut seat);
        dealt.push_reserved(new_pass(lock, cut, number));
    }
    dealt.push_reserved(new_pass(lock, seat, last));
    dealt
}

impl<K: Kept> LaneLock<K> {
    /// A lock over the value, with so many lanes and passes, which come in the order of their numbers. Where memory
    /// is wanting, the value comes back, or a share of it. A lane but lane 0 that is refused a share stays empty
    /// until a commit fills it.
    pub fn new(
        alloc: Global,
        value: K,
        lanes: u16,
        passes: u16,
    ) -> Result<(LaneLock<K>, Vec<Pass<K>>), NewError<K>>
        requires lanes { (1 ≤ lanes) × (lanes ≤ 64) }
        requires passes { (1 ≤ passes) × (passes ≤ 1024) }
        ensures sizes { IfOk result (λ r. (lanes_of r.0 ≡ lanes) × (passes_of r.0 ≡ passes)) }
        ensures opening { IfOk result (λ r. opening_of K.history r.0 ≡ K.history value) }
        ensures dealt { IfOk result (λ r. AllNew r.0 passes r.1.items) }
        ensures refused { IfErr result (GivesBack value) }
    {
        let first = match Arc::new(alloc, value) {
            Ok(share) => share,
            Err(AllocFailed { value }) => return Err(NewError::Value(value)),
        };
        let Ok(dealt) = Vec::with_capacity(alloc, usize::from(passes)) else {
            return Err(NewError::Share(first));
        };
        let Some(slots) = share_out(alloc, &first, lanes) else {
            return Err(NewError::Share(first));
        };
        let setup = Setup {
            lanes: u64::from(lanes),
            passes: u64::from(passes),
            value: Snapshot::of(&*first),
        };
        match open_table(alloc, home_words(lanes), slots, &setup) {
            Ok((table, seat)) => {
                let lock = LaneLock {
                    table,
                    lanes,
                    passes,
                };
                let dealt = deal_passes(&lock, seat, dealt);
                Ok((lock, dealt))
            }
            Err(_) => Err(NewError::Share(first)),
        }
    }
}
