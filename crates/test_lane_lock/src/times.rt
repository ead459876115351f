//! How many nanoseconds a read under the lock takes, by 1, 2 and 4 threads: each on a lane of its own, all on one lane,
//! and under std's lock. With the environment variable `LOCK_TIMES` there are as many reads as a measurement needs
//! (`bench/locks`); without, a few, each of which finds what is kept all the same.
//!
//! No two lanes share a line of cache, so a lane each, side by side, is to take no longer than lanes 8 apart.

use crate::crowd::Crowd;
use crate::{lanes, plain};
use std::alloc::Global;
use std::sync::Wait;
use std::thread::Threads;
use std::time::{Clock, Duration, Instant};
use std::{env, io};

// What is read.
#[derive(Clone, Copy)]
enum Way {
    LanesApart,
    LanesBeside,
    OneLane,
    Plain,
}

static ROWS: [(&'static str, Way); 4] = [
    ("a lane each, 8 apart", Way::LanesApart),
    ("a lane each, side by side", Way::LanesBeside),
    ("one lane", Way::OneLane),
    ("std's lock", Way::Plain),
];

static CROWDS: [Crowd; 3] = [Crowd::One, Crowd::Two, Crowd::Four];

const TRIES: u32 = 5;

// How many reads of a crowd found what is kept, each thread reading so many times; none where memory is wanting.
// Passes are 8 apart or more, whatever their lanes: pass p reads on lane `p mod lanes`.
fn reads<R: Threads + Wait + Sync>(
    rt: &R,
    alloc: Global,
    way: Way,
    crowd: Crowd,
    count: u32,
) -> Option<u64> {
    let count = u64::from(count);
    match way {
        Way::LanesApart => lanes::reads(rt, alloc, 32, 8, crowd, count),
        Way::LanesBeside => lanes::reads(rt, alloc, 4, 9, crowd, count),
        Way::OneLane => lanes::reads(rt, alloc, 1, 8, crowd, count),
        Way::Plain => plain::reads(rt, alloc, crowd, count),
    }
}

// How long they took, at the least of some tries; none where a read didn't find what is kept.
fn least_time<R: Threads + Wait + Sync + Clock>(
    rt: &R,
    alloc: Global,
    way: Way,
    crowd: Crowd,
    count: u32,
) -> Option<Duration> {
    let mut least = Duration::MAX;
    for _ in 0..TRIES {
        let start = Instant::now(rt).ok()?;
        let found = reads(rt, alloc, way, crowd, count)?;
        least = least.min(start.elapsed(rt).ok()?);
        if found != u64::from(crowd.threads()) * u64::from(count) {
            return None;
        }
    }
    Some(least)
}

// Prints a row's times. False where a read didn't find what is kept.
fn is_told<R: Threads + Wait + Sync + Clock + Print>(
    rt: &R,
    alloc: Global,
    name: &str,
    way: Way,
    measures: bool,
) -> io::Result<bool> {
    let count = if measures { 1_000_000 } else { 100 };
    for &crowd in &CROWDS {
        let Some(time) = least_time(rt, alloc, way, crowd, count) else {
            return Ok(false);
        };
        let nanos = time.as_nanos() / u128::from(count);
        println!(rt; "{name}; {}: {nanos} ns", crowd.threads())?;
    }
    Ok(true)
}

#[test]
fn all_reads_find_what_is_kept(rt: HostRuntime) -> io::Result<()> {
    let measures = env::var(&rt, "LOCK_TIMES").is_ok();
    for &(name, way) in &ROWS {
        assert!(rt; is_told(&rt, rt.alloc(), name, way, measures)?);
    }
    Ok(())
}
