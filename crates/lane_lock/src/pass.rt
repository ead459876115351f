//! A pass of a lock.

ghost use Rattle.std.specs.Prelude.{◌≡◌, ◌≢◌, ℕ, ◌-◌, ◌<◌, true, false, [], length};
ghost use Rattle.std.specs.Prelude.{slice_index, is_some};
ghost use Rattle.lane_lock.specs.Rule.{place};
ghost use Rattle.lane_lock.specs.Views.{IsBlank};

use crate::kept::Kept;
use crate::table::{PassSeat, Share};
use iofd_words::PassNo;

/// The right to use a lock, for one caller at a time. It carries what was seen of the lock's history, and what was
/// made in it. Passes are counted from 0; pass p has lane `p mod lanes`.
pub struct Pass<K: Kept> {
    pub(crate) seat: PassSeat<K>,
    pub(crate) number: u16,
    pub(crate) lane: u16,
    pub(crate) seen: u64,
    // Under a guard, or once one was forgotten: the share that the guard shows.
    pub(crate) share: Option<Share<K>>,
    ghost stands: { (seat.me.0.stands ≡ true) × (seat.me.0.number ≡ number) × (seat.me.0.others ≡ []) },
    ghost sized: { (lane < length seat.me.0.held) × (seat.table_id.slots ≡ seat.table_id.words)
        × (place (length seat.me.0.held) ≡ seat.table_id.words) },
    ghost has_seen: { seen ≡ length seat.me.0.seen },
    ghost idle: { is_some share ≡ false →
        (seat.me.1 ≡ []) × ((k : ℕ) → slice_index seat.me.0.held k ≡ 0) },
    ghost pinned: { seat.me.0.pin ≢ 0 → slice_index seat.me.0.held (seat.me.0.pin - 1) ≢ 0 },
    ghost guarded: { is_some share ≡ true → slice_index seat.me.0.held lane ≢ 0 },
}

// Written out, so that it is proved here alone and not, with all that a pass has, in each crate that drops one.
impl<K: Kept> Drop for Pass<K> {
    fn drop(self) {
        let Pass {
            seat: _,
            number: _,
            lane: _,
            seen: _,
            share: _,
        } = self;
    }
}

impl<K: Kept> Pass<K> {
    ghost use Rattle.std.specs.Prelude.{◌≡◌, ◌-◌, length};
    ghost use Rattle.lane_lock.specs.Passes.{view_of, number_of, lane_of};

    /// Its number.
    pub fn number(&self) -> PassNo
        ensures { result.0 ≡ number_of self.now }
    {
        PassNo(self.number)
    }

    /// The lane on which it reads.
    pub fn lane(&self) -> u16
        ensures { result ≡ lane_of self.now }
    {
        self.lane
    }

    /// How many records of the history it has seen. What the value was opened with isn't counted.
    pub fn seen(&self) -> u64
        ensures { result ≡ length (view_of self.now).seen - K.AHEAD }
    {
        self.seen.saturating_sub(K::AHEAD)
    }

    // The seat of a pass that is under no guard.
    pub(crate) fn into_seat(self) -> PassSeat<K>
        requires { is_some self.share ≡ false }
        ensures seat { result ≡ self.seat }
        ensures alone { (result.me.0.stands ≡ true) × (result.me.0.others ≡ []) }
        ensures idle { (result.me.1 ≡ []) × IsBlank result.me.0 }
    {
        let Pass {
            seat,
            number: _,
            lane: _,
            seen: _,
            share: _,
        } = self;
        seat
    }
}
