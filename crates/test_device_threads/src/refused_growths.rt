//! Runs of one worker with one job, to which one growth may be refused (tests/growth has the allocator): such a run
//! starts nothing, or its job tells want of memory; it makes no record either way, and made again at once comes out as
//! it has to. With ample memory each does so at once.

use crate::gate::Meeting;
use crate::prepared::{config, prepare};
use crate::site::Site;
use crate::tasks::{Task, are_all, byte_of, job};
use crate::test_site::TestSite;
use device_threads::{JobResult, Outcome};
use iofd_words::{DeviceNo, NoMemory, ObjId, Reply};
use shared_iommufd::PortCause;
use std::alloc::Global;
use std::sync::Wait;
use std::thread::Threads;

// The number of each job here: the byte that is written.
const NUMBER: u32 = 0xb7;

// Four records come before the jobs, and each job but the read makes one.
const RECORDS: usize = 8;

// What a run came to.
#[derive(Clone, Copy)]
enum End {
    Done,
    NoMemory,
    Other,
}

// Whether the job did what it had to. The device is the file's object 2, behind the address space.
fn is_done(task: Task, outcome: &Outcome) -> bool {
    match (task, outcome) {
        (Task::Attach, Outcome::Turn(Ok(Reply::Id(id)))) => *id == ObjId(3),
        (Task::Flush | Task::Detach, Outcome::Turn(Ok(Reply::Done))) => true,
        (Task::Write, Outcome::Write(Ok(()))) => true,
        (Task::Read, Outcome::Read { buffer, ended }) => {
            ended.is_ok() && are_all(buffer, byte_of(NUMBER))
        }
        _ => false,
    }
}

// Whether the job tells want of memory, and that it did nothing.
fn is_refused(outcome: &Outcome) -> bool {
    match outcome {
        Outcome::Turn(Err(NoMemory)) => true,
        Outcome::Write(Err(error)) => {
            error.done == 0 && matches!(error.cause, PortCause::Memory(NoMemory))
        }
        _ => false,
    }
}

fn end_of_one(task: Task, results: &[JobResult]) -> End {
    match results {
        [result] if is_done(task, &result.outcome) => End::Done,
        [result] if is_refused(&result.outcome) => End::NoMemory,
        _ => End::Other,
    }
}

// Gives the device this one job.
fn give<S: Site>(alloc: Global, site: &mut S, task: Task) {
    let mut jobs = Vec::new(alloc);
    if let Some(job) = job(alloc, DeviceNo(1), task, NUMBER) {
        let _put = jobs.push(job);
    }
    site.equip(jobs);
}

// What a run comes to. Where it starts nothing the device keeps its job.
fn attempt<S: Site, R: Threads + Wait + Sync>(
    rt: &R,
    alloc: Global,
    site: S,
    task: Task,
) -> (S, End) {
    let site = site.run(rt, alloc, &Meeting::of(1), 0);
    let end = match site.results() {
        Some(results) => end_of_one(task, results),
        None => End::NoMemory,
    };
    (site, end)
}

// Whether the device does the task, at the second run if a growth was refused to the first.
fn does<S: Site, R: Threads + Wait + Sync>(
    rt: &R,
    alloc: Global,
    mut site: S,
    task: Task,
) -> (S, bool) {
    give(alloc, &mut site, task);
    let (mut site, end) = attempt(rt, alloc, site, task);
    match end {
        End::Done => return (site, true),
        End::Other => return (site, false),
        End::NoMemory => {}
    }
    if site.results().is_some() {
        give(alloc, &mut site, task);
    }
    let (site, end) = attempt(rt, alloc, site, task);
    (site, matches!(end, End::Done))
}

// Whether the device is attached, writes, reads its bytes, is flushed and detached.
fn does_all<S: Site, R: Threads + Wait + Sync>(rt: &R, alloc: Global, site: S) -> (S, bool) {
    let (site, attached) = does(rt, alloc, site, Task::Attach);
    let (site, written) = does(rt, alloc, site, Task::Write);
    let (site, read) = does(rt, alloc, site, Task::Read);
    let (site, flushed) = does(rt, alloc, site, Task::Flush);
    let (site, detached) = does(rt, alloc, site, Task::Detach);
    (site, attached && written && read && flushed && detached)
}

// Whether it does all that, and there is a record of each but the read, and none that a refused run has made.
fn is_recorded<S: Site, R: Threads + Wait + Sync>(rt: &R, alloc: Global, mut site: S) -> bool {
    let prepared = prepare(rt, &mut site, 1);
    let (site, done) = does_all(rt, alloc, site);
    match site.ended(alloc) {
        Some((core, _all)) => prepared && done && core.records().len() == RECORDS,
        None => false,
    }
}

fn holds<S: Site, R: Threads + Wait + Sync>(rt: &R, alloc: Global) -> bool {
    let Some(config) = config(alloc, 2) else {
        return false;
    };
    match S::opened(alloc, &config) {
        Some(site) => is_recorded(rt, alloc, site),
        None => false,
    }
}

#[test]
fn a_refused_growth_makes_no_record(rt: HostRuntime) {
    assert!(rt; holds::<TestSite, _>(&rt, rt.alloc()));
}
