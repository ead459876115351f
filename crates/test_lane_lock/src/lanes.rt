//! Reads under a lock with lanes.

ghost use Rattle.std.specs.Prelude.{◌<◌, ◌≤◌, length};
ghost use Rattle.lane_lock.specs.Passes.{Owns, OwnsAll};

use crate::crowd::Crowd;
use crate::numbers::Numbers;
use crate::one_thread::new_lock;
use lane_lock::{LaneLock, Pass};
use std::alloc::Global;
use std::sync::Wait;
use std::sync::atomic::{AtomicU64, Ordering};
use std::thread::{Threads, for_each_chunk_mut};

// One thread reads so many times. The answer is how many of these reads found no number.
fn one<R: Wait>(rt: &R, lock: &LaneLock<Numbers>, pass: &mut Pass<Numbers>, count: u64) -> u64
    requires { Owns lock.now pass.old }
{
    let mut found = 0u64;
    for _ in 0..count {
        let guard = lock.read(rt, pass);
        if guard.get().entries.is_empty() {
            found = found.wrapping_add(1);
        }
        guard.end();
    }
    found
}

// Cuts the passes into stretches, and one pass of each reads, all at once, each in a thread of its own. A read writes
// its pass: in the middle of 8 it shares no line of cache with what another thread uses.
fn crowd_reads<R: Threads + Wait + Sync>(
    rt: &R,
    lock: &LaneLock<Numbers>,
    passes: &mut [Pass<Numbers>],
    apart: usize,
    count: u64,
) -> u64
    requires apart { 1 ≤ apart }
    requires passes { OwnsAll lock.now passes.old }
{
    let found = AtomicU64::new(0);
    for_each_chunk_mut(
        rt,
        passes,
        apart,
        &|_, part: &mut [Pass<Numbers>]|
            requires { (0 < length part.now) × OwnsAll lock.now part.now }
        {
            let middle = part.len() / 2;
            found.fetch_add(one(rt, lock, &mut part[middle], count), Ordering::SeqCst);
        },
    );
    found.load(Ordering::SeqCst)
}

// A crowd reads, each thread so many times, by passes whose numbers are so far apart. No answer where memory is
// wanting.
pub fn reads<R: Threads + Wait + Sync>(
    rt: &R,
    alloc: Global,
    lanes: u16,
    apart: u16,
    crowd: Crowd,
    count: u64,
) -> Option<u64>
    requires { (1 ≤ lanes) × (lanes ≤ 64) × (1 ≤ apart) × (apart ≤ 256) }
{
    let (lock, mut passes) = new_lock(alloc, 0, lanes, crowd.passes(apart))?;
    Some(crowd_reads(rt, &lock, &mut passes, usize::from(apart), count))
}
