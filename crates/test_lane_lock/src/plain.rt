//! Reads under std's lock.

use crate::crowd::Crowd;
use crate::numbers::Numbers;
use std::alloc::Global;
use std::sync::{RwLock, Wait};
use std::thread::{Threads, join};

// One thread reads so many times. The answer is how many of these reads found no number.
fn one<R: Wait>(rt: &R, lock: &RwLock<Numbers>, count: u64) -> u64 {
    let mut found = 0u64;
    for _ in 0..count {
        let guard = lock.read(rt);
        if guard.entries.is_empty() {
            found = found.wrapping_add(1);
        }
        drop(guard);
    }
    found
}

// Two threads at once.
fn two<R: Threads + Wait + Sync>(rt: &R, lock: &RwLock<Numbers>, count: u64) -> u64 {
    let (first, second) = join(rt, || one(rt, lock, count), || one(rt, lock, count));
    first.wrapping_add(second)
}

// A crowd reads, each thread so many times. No answer where memory is wanting.
pub fn reads<R: Threads + Wait + Sync>(
    rt: &R,
    alloc: Global,
    crowd: Crowd,
    count: u64,
) -> Option<u64> {
    let lock = RwLock::new(Numbers::new(alloc, 0).ok()?);
    let lock = &lock;
    Some(match crowd {
        Crowd::One => one(rt, lock, count),
        Crowd::Two => two(rt, lock, count),
        Crowd::Four => {
            let (first, second) = join(rt, || two(rt, lock, count), || two(rt, lock, count));
            first.wrapping_add(second)
        }
    })
}
