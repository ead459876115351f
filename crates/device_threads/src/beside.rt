//! Work beside one another, each in a thread of its own.

ghost use Rattle.std.specs.Prelude.{◌≡◌, ◌<◌, ◌≤◌, ◌++◌, ◌∷◌, [], length, vec_capacity};
ghost use Rattle.std.specs.Thread.{IsSend, IsSync};
ghost use Rattle.device_threads.specs.Pairs.{Pairwise};

use std::thread::{Threads, join};

/// What is done with the two values of a place.
pub(crate) trait Work<X, Y, Z> {
    /// Where it may be done.
    ghost may: { Self → X → Y → Type 0 };

    /// What comes of it.
    ghost makes: { Self → X → Y → Z → Type 0 };

    fn make(&self, first: X, second: Y) -> Z
        requires { may self.now first second }
        ensures { makes self.now first second result };
}

// Does the work of each place in a thread of its own, and joins what comes of them. Work for which no thread can be made
// is done here, after the others.
#[cycle(calls)]
pub(crate) fn work_beside<
    R: Threads + Sync,
    X: Send + Drop,
    Y: Send + Drop,
    Z: Send + Drop,
    W: Work<X, Y, Z> + Sync,
>(rt: &R, work: &W, mut firsts: Vec<X>, mut seconds: Vec<Y>, done: Vec<Z>) -> Vec<Z>
    requires may { Pairwise (W.may work.now) firsts.items seconds.items }
    requires empty { done.items ≡ [] }
    requires enough { length firsts.items ≤ vec_capacity done }
    ensures came { Pairwise (λ x z. (y : Y) × W.makes work.now x y z) firsts.items result.items }
    ensures capacity { vec_capacity result ≡ vec_capacity done }
{
    let Some(first) = firsts.pop() else {
        return done;
    };
    let Some(second) = seconds.pop() else {
        unreachable!()
    };
    let last = move || -> Z
        requires { W.may work.now first second }
        ensures { W.makes work.entry.now first second result }
    { work.make(first, second) };
    let others = move || -> Vec<Z>
        requires { IsSync R.row × IsSync W.row × IsSend X.row × IsSend Y.row × IsSend Z.row
            × Pairwise (W.may work.now) firsts.items seconds.items × (done.items ≡ [])
            × (length firsts.items ≤ vec_capacity done) }
        ensures { Pairwise (λ x z. (y : Y) × W.makes work.entry.now x y z) firsts.items result.items
            × (vec_capacity result ≡ vec_capacity done) }
    { work_beside(rt, work, firsts, seconds, done) };
    let (came, all) = join(rt, last, others);
    put_last(all, came)
}

// Puts what came of the last call behind what came of the others.
fn put_last<Z>(mut all: Vec<Z>, last: Z) -> Vec<Z>
    requires { length all.items < vec_capacity all }
    ensures items { result.items ≡ all.items ++ last ∷ [] }
    ensures capacity { vec_capacity result ≡ vec_capacity all }
{
    all.push_reserved(last);
    all
}
