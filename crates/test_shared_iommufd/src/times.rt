//! How many nanoseconds an operation takes: a port's read of 64 bytes, a look that reads them, a call that writes them.
//! With the environment variable `SERVER_TIMES` there are as many operations as a measurement needs (`bench/server`);
//! without, a few, each of which passes all the same.
//!
//! First one thread reads 64 pages in turn, by a device's port: by one that keeps them all, by one that keeps 4, and so
//! never the page that is read next, and by one that is closed and opened again before each read. Beside these stand
//! looks at the same pages.
//!
//! Then 1, 2 and 4 threads look and call, each at a page of its own: at the server, each with a lane of its own, and at
//! a core of the same history under std's lock. The nanoseconds are those of one thread: where threads don't disturb
//! each other they are the same for any number of threads.

ghost use Rattle.std.specs.Prelude.{◌<◌};

use crate::mapped::ready;
use crate::ports::attaches;
use crate::served::{Device, Whole};
use crate::work::{PAGES, Task, va_of};
use iofd_words::Iova;
use shared_iommufd::Core;
use std::alloc::Global;
use std::sync::{RwLock, Wait};
use std::thread::Threads;
use std::time::{Clock, Duration, Instant};
use std::{env, io};

// Where the operations are made.
enum Place {
    // At a device's port that keeps so many pages.
    Port(u16),
    // At one that keeps them all, and is closed and opened again before each read.
    Reopened,
    // At the server, each thread by a lane of its own.
    Lanes,
    // At a core under std's lock.
    Plain,
}

type Row = (&'static str, Place, Task);

static ROWS: [Row; 10] = [
    ("a port's reads, hits", Place::Port(64), Task::InTurn),
    ("a port's reads, misses", Place::Port(4), Task::InTurn),
    ("a port's reads, just opened", Place::Reopened, Task::InTurn),
    ("looks in turn, a lane each", Place::Lanes, Task::InTurn),
    ("looks, a lane each", Place::Lanes, Task::Looks),
    ("looks, std's lock", Place::Plain, Task::Looks),
    ("19 looks to a call, a lane each", Place::Lanes, Task::Both),
    ("19 looks to a call, std's lock", Place::Plain, Task::Both),
    ("calls, a lane each", Place::Lanes, Task::Calls),
    ("calls, std's lock", Place::Plain, Task::Calls),
];

const TRIES: u32 = 5;

const LANES: u16 = 4;

// The core of such a server, under std's lock.
fn plain_core<W: Whole>(server: W) -> Option<RwLock<Core>> {
    match server.ended() {
        Some(core) => Some(RwLock::new(core)),
        None => None,
    }
}

// How many of a device's reads pass, of 64 bytes of each page in turn; and the device.
fn reads<D: Device>(mut device: D, reopens: bool, count: u32) -> (D, u64) {
    let mut passed = 0u64;
    for number in 0..count {
        if reopens {
            device = device.reopened();
        }
        let iova = Iova(va_of(number % PAGES));
        let read = device.read(iova, &mut [0; 64]);
        passed = passed.wrapping_add(u64::from(read.is_ok()));
    }
    (device, passed)
}

// How many operations pass at this server; and the server.
fn made<R: Threads + Wait + Sync, S: Device + Whole>(
    rt: &R,
    mut server: S,
    core: &RwLock<Core>,
    row: &Row,
    threads: u8,
    count: u32,
) -> (S, u64) {
    let plain = match row.1 {
        Place::Port(_) => return reads(server, false, count),
        Place::Reopened => return reads(server, true, count),
        Place::Lanes => None,
        Place::Plain => Some(core),
    };
    let passed = server.crowd(rt, plain, threads, &row.2, count);
    (server, passed)
}

// How long it is since then.
fn elapsed<R: Clock>(rt: &R, start: io::Result<Instant>) -> Option<Duration> {
    match start {
        Ok(start) => start.elapsed(rt).ok(),
        Err(_) => None,
    }
}

// How long the operations take at this server, where all of them pass.
fn timed<R: Threads + Wait + Sync + Clock, S: Device + Whole>(
    rt: &R,
    mut server: S,
    core: &RwLock<Core>,
    row: &Row,
    threads: u8,
    count: u32,
) -> Option<Duration> {
    let _attached = attaches(&mut server);
    let start = Instant::now(rt);
    let (server, passed) = made(rt, server, core, row, threads, count);
    let time = elapsed(rt, start);
    let _core = server.ended();
    if passed == u64::from(threads) * u64::from(count) {
        time
    } else {
        None
    }
}

// The same, at a new server and a new core.
fn time<R: Threads + Wait + Sync + Clock>(
    rt: &R,
    global: Global,
    row: &Row,
    threads: u8,
    count: u32,
) -> Option<Duration> {
    let keeps = match row.1 {
        Place::Port(keeps) => keeps,
        _ => 64,
    };
    let core = plain_core(ready(rt, global, 1, LANES, 1)?)?;
    let server = ready(rt, global, threads, LANES, keeps)?;
    timed(rt, server, &core, row, threads, count)
}

// How many operations there are. A call makes a record, which stays, so of calls there are fewer.
fn count_of(task: &Task, measures: bool) -> u32
    ensures { 0 < result }
{
    match (measures, task) {
        (true, Task::Calls) => 50_000,
        (true, _) => 1_000_000,
        _ => 200,
    }
}

// How many nanoseconds one of them takes, at the least of some tries.
fn nanos<R: Threads + Wait + Sync + Clock>(
    rt: &R,
    global: Global,
    row: &Row,
    threads: u8,
    measures: bool,
) -> Option<u128> {
    let count = count_of(&row.2, measures);
    let mut least = Duration::MAX;
    for _ in 0..TRIES {
        least = least.min(time(rt, global, row, threads, count)?);
    }
    Some(least.as_nanos() / u128::from(count))
}

// Prints a row's times. False where an operation didn't pass.
fn is_told<R: Threads + Wait + Sync + Clock + Print>(
    rt: &R,
    global: Global,
    row: &Row,
    measures: bool,
) -> io::Result<bool> {
    let crowds: &[u8] = match row.1 {
        Place::Port(_) | Place::Reopened => &[1],
        Place::Lanes | Place::Plain => &[1, 2, 4],
    };
    for &threads in crowds {
        let Some(nanos) = nanos(rt, global, row, threads, measures) else {
            return Ok(false);
        };
        println!(rt; "{}; {threads}: {nanos} ns", row.0)?;
    }
    Ok(true)
}

#[test]
fn all_operations_pass(rt: HostRuntime) -> io::Result<()> {
    let measures = env::var(&rt, "SERVER_TIMES").is_ok();
    for row in &ROWS {
        assert!(rt; is_told(&rt, rt.alloc(), row, measures)?);
    }
    Ok(())
}
