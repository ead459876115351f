//! The table of a lock: a word and a slot for each lane. The word is 0 where the lane is at home, 2 p + 1 where pass p
//! has it to read and 2 p + 2 where p has it to write. The slot has a share of the value, or none. Words and slots have
//! 8 bytes each, and a line of cache mostly has 64: so lane k has word 8 k and slot 8 k, and those between are unused.

ghost use Rattle.std.specs.Prelude.{◌≡◌};
ghost use Rattle.lane_lock.specs.Rule.{place};

use crate::kept::Kept;
use atomic_table::{Seat, Shared, Table, TableRule};
use std::alloc::Global;
use std::collections::LinkedList;
use std::marker::PhantomData;
use std::snapshot::Snapshot;
use std::sync::Arc;

/// What a pass has seen of the history, and the records that it made. No value of it is made.
pub struct Known<E> {
    pub number: u64,
    pub seen: LinkedList<E>,
    pub made: LinkedList<E>,
}

/// What a seat knows. No value of it is made.
pub struct View<E> {
    /// Whether it stands for a pass. Where it doesn't, it only knows how the history begins.
    pub stands: bool,
    /// The number of the pass.
    pub number: u64,
    /// The opening value's history.
    pub opening: LinkedList<E>,
    /// How many passes the lock has.
    pub passes: u64,
    /// What the pass has seen of the history, from its beginning on.
    pub seen: LinkedList<E>,
    /// The records that the pass made.
    pub made: LinkedList<E>,
    /// Further passes.
    pub others: LinkedList<Known<E>>,
    /// The word of each lane that the pass holds, and 0 for the other lanes.
    pub held: LinkedList<u64>,
    /// 1 more than a lane that the pass holds while it has seen the whole history, or 0.
    pub pin: u64,
    /// How many takes found a lane held, and the last such lane with its word.
    pub busy: u64,
    pub lane: u64,
    pub word: u64,
    /// How many takes to read found a slot empty, and the last such lane.
    pub empty: u64,
    pub empty_lane: u64,
    /// How many takes to read had a share.
    pub reads: u64,
    /// How many takes to write had the last lane. `start_write` takes them upwards, so it then has all of them.
    pub writes: u64,
}

/// What the rule reads: the number of lanes and of passes, and the opening value.
#[derive(Drop)]
pub struct Setup<K> {
    pub lanes: u64,
    pub passes: u64,
    pub value: Snapshot<K>,
}

/// The rule of a lock's table.
pub struct LaneRule<K> {
    kept: PhantomData<K>,
}

/// A share of the kept value.
pub type Share<K> = Arc<K, Global>;

impl<K: Kept> TableRule<Option<Share<K>>, View<K::Record>, Setup<K>> for LaneRule<K> {
    ghost use Rattle.lane_lock.specs.Rule.{Ruled, starting};

    ghost holds = { λ key. Ruled K.history K.maker key };

    ghost first = { λ key. starting K.history key };
}

pub(crate) type LaneTable<K> = Table<
    Option<Share<K>>,
    View<<K as Kept>::Record>,
    Setup<K>,
    LaneRule<K>,
    Global,
>;

pub(crate) type SharedLanes<K> = Shared<
    Option<Share<K>>,
    View<<K as Kept>::Record>,
    Setup<K>,
    LaneRule<K>,
>;

pub(crate) type PassSeat<K> = Seat<Option<Share<K>>, View<<K as Kept>::Record>>;

// Where a lane has its word, and where its slot.
pub(crate) fn place(lane: u16) -> usize
    ensures { result ≡ place lane }
{
    lane as usize * 8
}
