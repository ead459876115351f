//! Four threads at once.

ghost use Rattle.lane_lock.specs.Passes.{Owns, OwnsAll};

use crate::numbers::Numbers;
use crate::one_thread::new_lock;
use iofd_words::PassNo;
use lane_lock::{CloseError, LaneLock, Pass};
use std::alloc::Global;
use std::sync::Wait;
use std::thread::{Threads, for_each_mut};

const ROUNDS: u64 = 10_000;

// Adds the numbers 0, 1, 2 and so on, and reads after each.
fn work<R: Wait>(rt: &R, lock: &LaneLock<Numbers>, pass: &mut Pass<Numbers>)
    requires { Owns lock.now pass.old }
    ensures { Owns lock.now pass.new }
{
    let mut next = 0;
    for _ in rt.forever() {
        if next >= ROUNDS {
            break;
        }
        if lock.write(rt, pass).commit(&next).is_ok() {
            next += 1;
        }
        lock.read(rt, pass).end();
    }
}

// The passes work at once, in four threads.
fn four_work<R: Threads + Wait + Sync>(
    rt: &R,
    lock: &LaneLock<Numbers>,
    passes: &mut [Pass<Numbers>],
)
    requires { OwnsAll lock.now passes.old }
    ensures { OwnsAll lock.now passes.new }
{
    for_each_mut(
        rt,
        passes,
        4,
        &|_, pass: &mut Pass<Numbers>|
            requires { Owns lock.now pass.now }
            ensures { Owns lock.entry.now pass.exit.now }
        { work(rt, lock, pass) },
    );
}

// Whether each of the four passes added the numbers in order.
fn all_count_up(numbers: &Numbers) -> bool {
    (0..4).all(|pass| numbers.counts_up(PassNo(pass), ROUNDS))
}

// Whether a lock was closed over such numbers.
fn count_up(closed: Result<Numbers, CloseError<Numbers>>) -> bool {
    match closed {
        Ok(numbers) => all_count_up(&numbers),
        Err(_) => false,
    }
}

// Whether the four passes of a new lock do so.
fn each_record_once<R: Threads + Wait + Sync>(rt: &R, alloc: Global) -> bool {
    match new_lock(alloc, 40_000, 4, 4) {
        Some((lock, mut passes)) => {
            four_work(rt, &lock, &mut passes);
            count_up(lock.close(passes))
        }
        None => false,
    }
}

#[test]
fn four_threads_make_each_record_once(rt: HostRuntime) {
    assert!(rt; each_record_once(&rt, rt.alloc()));
}
