//! What each kind of step on the table tells the seat that makes it.

ghost use Rattle.std.specs.Prelude.{[], true, false};
ghost use Rattle.lane_lock.specs.Rule.{lane_at};
ghost use Rattle.lane_lock.specs.Steps.{took, ended, returned, committed};
ghost use Rattle.lane_lock.specs.Views.{without_one, first_alone, note, note_of, learned, gathered};

use crate::kept::Kept;
use crate::table::{Share, View};
use atomic_table::{Join, Play, Split};
use std::marker::PhantomData;

// A lane is taken to read, or found held.
pub(crate) struct TakeToRead<K> {
    kept: PhantomData<K>,
}

impl<K: Kept> Play<Option<Share<K>>, View<K::Record>> for TakeToRead<K> {
    ghost then = { λ step. took true K.history K.maker (lane_at step.word) step.second };
}

// A lane is taken to write, or found held.
pub(crate) struct TakeToWrite<K> {
    kept: PhantomData<K>,
}

impl<K: Kept> Play<Option<Share<K>>, View<K::Record>> for TakeToWrite<K> {
    ghost then = { λ step. took false K.history K.maker (lane_at step.word) step.second };
}

// A lane is put back, and none pins what was seen any more.
pub(crate) struct End<K> {
    kept: PhantomData<K>,
}

impl<K: Kept> Play<Option<Share<K>>, View<K::Record>> for End<K> {
    ghost then = { λ step before _ after. ended (lane_at step.word) before after };
}

// A lane is put back, while another pins what was seen.
pub(crate) struct Return<K> {
    kept: PhantomData<K>,
}

impl<K: Kept> Play<Option<Share<K>>, View<K::Record>> for Return<K> {
    ghost then = { λ step before _ after. returned (lane_at step.word) before after };
}

// Lane 0 is put back with one more record.
pub(crate) struct Commit<K> {
    kept: PhantomData<K>,
}

impl<K: Kept> Play<Option<Share<K>>, View<K::Record>> for Commit<K> {
    ghost then = { λ step before _ after. committed K.history (lane_at step.slots) before after };
}

// The first further pass gets a seat of its own.
pub(crate) struct Deal;

impl<E> Split<View<E>> for Deal {
    ghost left = { without_one };

    ghost right = { first_alone };
}

// A note of what was seen gets a seat of its own.
pub(crate) struct Tell;

impl<E> Split<View<E>> for Tell {
    ghost left = { λ v. v };

    ghost right = { note };
}

// A pass takes in a note.
pub(crate) struct Learn;

impl<E> Join<View<E>> for Learn {
    ghost both = { learned };

    ghost spent = { note_of [] };
}

// A pass takes in another pass.
pub(crate) struct Gather;

impl<E> Join<View<E>> for Gather {
    ghost both = { gathered };

    ghost spent = { note_of [] };
}
