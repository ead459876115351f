//! One thread, several passes.

ghost use Rattle.std.specs.Prelude.{◌≡◌, ◌≤◌, length, IfSome};
ghost use Rattle.lane_lock.specs.Passes.{Owns, OwnsAll};

use crate::numbers::Numbers;
use iofd_words::{NoMemory, PassNo};
use lane_lock::{Busy, CloseError, CommitError, LaneLock, NotNow, Pass};
use std::alloc::Global;

// A lock over no numbers, and its passes.
pub fn new_lock(
    alloc: Global,
    room: usize,
    lanes: u16,
    passes: u16,
) -> Option<(LaneLock<Numbers>, Vec<Pass<Numbers>>)>
    requires { (1 ≤ lanes) × (lanes ≤ 64) × (1 ≤ passes) × (passes ≤ 1024) }
    ensures owned { IfSome result (λ r. OwnsAll r.0 r.1.items) }
    ensures count { IfSome result (λ r. length r.1.items ≡ passes) }
{
    let numbers = Numbers::new(alloc, room).ok()?;
    LaneLock::new(alloc, numbers, lanes, passes).ok()
}

// Adds a number, at once. The answer is its place.
fn add(
    lock: &LaneLock<Numbers>,
    pass: &mut Pass<Numbers>,
    number: u64,
) -> Option<Result<u64, CommitError>>
    requires { Owns lock.now pass.old }
    ensures { Owns lock.now pass.new }
{
    match pass.try_write(lock) {
        Ok(guard) => Some(guard.commit(&number)),
        Err(_) => None,
    }
}

// The number of entries that a reader is shown, at once. Its guard is dropped.
fn shown(lock: &LaneLock<Numbers>, pass: &mut Pass<Numbers>) -> Result<usize, NotNow>
    requires { Owns lock.now pass.old }
    ensures { Owns lock.now pass.new }
{
    match pass.try_read(lock) {
        Ok(guard) => {
            let count = guard.get().entries.len();
            drop(guard);
            Ok(count)
        }
        Err(refused) => Err(refused),
    }
}

// What refuses a write at once.
fn refusal_of_write(lock: &LaneLock<Numbers>, pass: &mut Pass<Numbers>) -> Option<Busy>
    requires { Owns lock.now pass.old }
    ensures { Owns lock.now pass.new }
{
    match pass.try_write(lock) {
        Ok(guard) => {
            guard.give_back();
            None
        }
        Err(busy) => Some(busy),
    }
}

// Takes all lanes to write, and drops the guard.
fn drops_guard(lock: &LaneLock<Numbers>, pass: &mut Pass<Numbers>) -> bool
    requires { Owns lock.now pass.old }
    ensures { Owns lock.now pass.new }
{
    match pass.try_write(lock) {
        Ok(guard) => {
            drop(guard);
            true
        }
        Err(_) => false,
    }
}

// Takes the lane of the pass to read, and forgets the guard.
fn forgets_guard(lock: &LaneLock<Numbers>, pass: &mut Pass<Numbers>) -> bool
    requires { Owns lock.now pass.old }
    ensures { Owns lock.now pass.new }
{
    match pass.try_read(lock) {
        Ok(guard) => {
            guard.forget();
            true
        }
        Err(_) => false,
    }
}

fn busy(lane: u16, holder: u16) -> Busy {
    Busy {
        lane,
        holder: PassNo(holder),
    }
}

// Whether the passes have their numbers, and their lanes, of which there are two.
fn are_numbered(p0: &Pass<Numbers>, p1: &Pass<Numbers>, p2: &Pass<Numbers>) -> bool {
    p0.number() == PassNo(0)
        && p1.number() == PassNo(1)
        && p2.number() == PassNo(2)
        && (p0.lane(), p1.lane(), p2.lane()) == (0, 1, 0)
}

// The second of two commits finds no room. A pass that never wrote is shown the one record.
fn refused_growth(lock: &LaneLock<Numbers>, p0: &mut Pass<Numbers>, p1: &mut Pass<Numbers>) -> bool
    requires { Owns lock.now p0.old × Owns lock.now p1.old }
    ensures { Owns lock.now p0.new × Owns lock.now p1.new }
{
    let first = add(lock, p0, 7) == Some(Ok(0));
    let second = add(lock, p0, 8) == Some(Err(CommitError::Memory(NoMemory)));
    let third = shown(lock, p1) == Ok(1);
    first && second && third && p1.seen() == 1
}

// A guard that was dropped or given back puts its lanes back and appends nothing.
fn dropped_guards(lock: &LaneLock<Numbers>, p0: &mut Pass<Numbers>, p1: &mut Pass<Numbers>) -> bool
    requires { Owns lock.now p0.old × Owns lock.now p1.old }
    ensures { Owns lock.now p0.new × Owns lock.now p1.new }
{
    let read = shown(lock, p0) == Ok(1) && shown(lock, p0) == Ok(1);
    let given_back = refusal_of_write(lock, p1).is_none();
    let dropped = drops_guard(lock, p1);
    let after = shown(lock, p0) == Ok(1) && refusal_of_write(lock, p1).is_none();
    read && given_back && dropped && after && shown(lock, p1) == Ok(1)
}

// What a writer and another reader meet while this reader has its lane.
fn beside(
    lock: &LaneLock<Numbers>,
    reader: &mut Pass<Numbers>,
    writer: &mut Pass<Numbers>,
    other: &mut Pass<Numbers>,
) -> Option<(Option<Busy>, Result<usize, NotNow>)>
    requires { Owns lock.now reader.old × Owns lock.now writer.old × Owns lock.now other.old }
    ensures { Owns lock.now reader.new × Owns lock.now writer.new × Owns lock.now other.new }
{
    match reader.try_read(lock) {
        Ok(guard) => {
            let refusal = refusal_of_write(lock, writer);
            let read = shown(lock, other);
            guard.end();
            Some((refusal, read))
        }
        Err(_) => None,
    }
}

// Readers on lanes of their own serve at once, and a writer meets the lower of the lanes that are held. A forgotten
// guard keeps its lane, for its own pass too.
fn readers_at_once(
    lock: &LaneLock<Numbers>,
    p0: &mut Pass<Numbers>,
    p1: &mut Pass<Numbers>,
    p2: &mut Pass<Numbers>,
) -> bool
    requires { Owns lock.now p0.old × Owns lock.now p1.old × Owns lock.now p2.old }
    ensures { Owns lock.now p0.new × Owns lock.now p1.new × Owns lock.now p2.new }
{
    let upper = beside(lock, p1, p2, p0) == Some((Some(busy(1, 1)), Ok(1)));
    let forgotten = forgets_guard(lock, p0);
    let held = Err(NotNow::Busy(busy(0, 0)));
    let both = beside(lock, p1, p2, p0) == Some((Some(busy(0, 0)), held));
    let alone = refusal_of_write(lock, p1) == Some(busy(0, 0));
    upper && forgotten && both && alone && shown(lock, p1) == Ok(1)
}

// What the three passes of a lock of two lanes with room for one number do, one after the other.
fn three_passes(
    lock: &LaneLock<Numbers>,
    p0: &mut Pass<Numbers>,
    p1: &mut Pass<Numbers>,
    p2: &mut Pass<Numbers>,
) -> bool
    requires { Owns lock.now p0.old × Owns lock.now p1.old × Owns lock.now p2.old }
    ensures { Owns lock.now p0.new × Owns lock.now p1.new × Owns lock.now p2.new }
{
    let numbered = are_numbered(p0, p1, p2);
    let refused = refused_growth(lock, p0, p1);
    let dropped = dropped_guards(lock, p0, p1);
    let at_once = readers_at_once(lock, p0, p1, p2);
    numbered && refused && dropped && at_once
}

// Lends three passes one by one.
fn each_lent(lock: &LaneLock<Numbers>, passes: &mut [Pass<Numbers>]) -> bool
    requires owned { OwnsAll lock.now passes.old }
    requires count { length passes.old ≡ 3 }
    ensures { OwnsAll lock.now passes.new }
{
    let (first, rest) = passes.split_at_mut(1);
    let (second, third) = rest.split_at_mut(1);
    three_passes(lock, &mut first[0], &mut second[0], &mut third[0])
}

// Whether a lock was not closed, and three passes come back with it.
fn hands_back_three(closed: Result<Numbers, CloseError<Numbers>>) -> bool {
    match closed {
        Err(CloseError::NotAll { lock: _, passes }) => passes.len() == 3,
        _ => false,
    }
}

// Whether the passes of a new lock do so, and it can't be closed then, since a guard was forgotten.
fn share_a_lock(alloc: Global) -> bool {
    match new_lock(alloc, 1, 2, 3) {
        Some((lock, mut passes)) => {
            let shared = each_lent(&lock, &mut passes);
            hands_back_three(lock.close(passes)) && shared
        }
        None => false,
    }
}

#[test]
fn three_passes_share_a_lock(rt: HostRuntime) {
    assert!(rt; share_a_lock(rt.alloc()));
}

// The last of the passes.
fn last_pass(lock: &LaneLock<Numbers>, passes: &mut Vec<Pass<Numbers>>) -> Option<Pass<Numbers>>
    requires { OwnsAll lock.now passes.old.items }
    ensures taken { IfSome result (Owns lock.now) }
    ensures left { OwnsAll lock.now passes.new.items }
{
    let _ = lock;
    passes.pop()
}

// Puts the pass behind the others, if there is memory.
fn put_last(lock: &LaneLock<Numbers>, passes: &mut Vec<Pass<Numbers>>, pass: Pass<Numbers>) -> bool
    requires { OwnsAll lock.now passes.old.items × Owns lock.now pass }
    ensures { OwnsAll lock.now passes.new.items }
{
    let _ = lock;
    passes.push(pass).is_ok()
}

// Whether a lock was closed over the number 7 of this pass alone.
fn has_seven(closed: Result<Numbers, CloseError<Numbers>>, pass: PassNo) -> bool {
    match closed {
        Ok(numbers) => numbers.is_only(pass, 7),
        Err(_) => false,
    }
}

// Whether the lock closes with this pass behind the others, over its number.
fn closes_with(lock: LaneLock<Numbers>, mut passes: Vec<Pass<Numbers>>, last: Pass<Numbers>) -> bool
    requires { OwnsAll lock passes.items × Owns lock last }
{
    let number = last.number();
    put_last(&lock, &mut passes, last) && has_seven(lock.close(passes), number)
}

// The lock doesn't close without this pass; with all it does.
fn closes_with_all(lock: LaneLock<Numbers>, others: Vec<Pass<Numbers>>, last: Pass<Numbers>) -> bool
    requires { OwnsAll lock others.items × Owns lock last }
{
    match lock.close(others) {
        Err(CloseError::NotAll { lock, passes }) => closes_with(lock, passes, last),
        _ => false,
    }
}

// A record is seen by the pass that made it, and by another once they have met.
fn passes_meet(
    lock: &LaneLock<Numbers>,
    pass: &mut Pass<Numbers>,
    other: &mut Pass<Numbers>,
) -> bool
    requires { Owns lock.now pass.old × Owns lock.now other.old }
    ensures { Owns lock.now pass.new × Owns lock.now other.new }
{
    let apart = pass.seen() == 1 && other.seen() == 0;
    lock.meet(pass, other);
    apart && pass.seen() == 1 && other.seen() == 1
}

// Whether the first of the others meets the pass so, if there is one.
fn meets_first(
    lock: &LaneLock<Numbers>,
    pass: &mut Pass<Numbers>,
    others: &mut [Pass<Numbers>],
) -> bool
    requires { Owns lock.now pass.old × OwnsAll lock.now others.old }
    ensures { Owns lock.now pass.new × OwnsAll lock.now others.new }
{
    others.is_empty() || passes_meet(lock, pass, &mut others[0])
}

// The last pass commits and reads, and meets another. All of them close the lock.
fn last_serves(lock: LaneLock<Numbers>, mut passes: Vec<Pass<Numbers>>) -> bool
    requires { OwnsAll lock passes.items }
{
    match last_pass(&lock, &mut passes) {
        Some(mut last) => {
            let added = add(&lock, &mut last, 7) == Some(Ok(0));
            let read = shown(&lock, &mut last) == Ok(1);
            let met = meets_first(&lock, &mut last, &mut passes);
            closes_with_all(lock, passes, last) && added && read && met
        }
        None => false,
    }
}

// Whether a lock of this size does so.
fn serves(alloc: Global, lanes: u16, passes: u16) -> bool
    requires { (1 ≤ lanes) × (lanes ≤ 64) × (1 ≤ passes) × (passes ≤ 1024) }
{
    match new_lock(alloc, 4, lanes, passes) {
        Some((lock, passes)) => last_serves(lock, passes),
        None => false,
    }
}

#[test]
fn locks_of_the_least_and_the_greatest_size_serve(rt: HostRuntime) {
    let few = serves(rt.alloc(), 1, 1) && serves(rt.alloc(), 1, 3);
    let many = serves(rt.alloc(), 3, 2) && serves(rt.alloc(), 64, 1024);
    assert!(rt; few && many);
}
