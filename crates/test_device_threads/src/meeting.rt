//! Two devices are at work at once: each waits at its first job until the other has begun its own.

use crate::gate::Meeting;
use crate::prepared::config;
use crate::site::Site;
use crate::tasks::jobs;
use crate::test_site::TestSite;
use device_threads::JobResult;
use iofd_words::DeviceNo;
use std::alloc::Global;
use std::sync::Wait;
use std::thread::Threads;

// Whether two devices came back, each with one result.
fn are_two(all: &[Vec<JobResult>]) -> bool {
    match all {
        [one, other] => one.len() == 1 && other.len() == 1,
        _ => false,
    }
}

// Whether they met.
fn meets<S: Site, R: Threads + Wait + Sync>(rt: &R, alloc: Global, mut site: S) -> bool {
    site.equip(jobs(alloc, 1, DeviceNo(1), 1));
    site.equip(jobs(alloc, 1, DeviceNo(2), 1));
    let gate = Meeting::of(2);
    let site = site.run(rt, alloc, &gate, 0);
    match site.ended(alloc) {
        Some((_core, all)) => are_two(&all) && gate.is_met(),
        None => false,
    }
}

fn meet<S: Site, R: Threads + Wait + Sync>(rt: &R, alloc: Global) -> bool {
    let Some(config) = config(alloc, 3) else {
        return false;
    };
    match S::opened(alloc, &config) {
        Some(site) => meets(rt, alloc, site),
        None => false,
    }
}

// Whether they meet in one of some tries: on a machine that is busy with other work one thread may use up its turns
// before the other has been started.
fn meet_once<S: Site, R: Threads + Wait + Sync>(rt: &R, alloc: Global) -> bool {
    for _ in 0..50u8 {
        if meet::<S, R>(rt, alloc) {
            return true;
        }
    }
    false
}

#[test]
fn two_devices_work_at_once(rt: HostRuntime) {
    assert!(rt; meet_once::<TestSite, _>(&rt, rt.alloc()));
}
