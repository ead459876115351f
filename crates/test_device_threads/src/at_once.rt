//! Eight devices with many jobs each, while a ninth thread maps, unmaps and flushes: each result is one that the
//! journal explains, and the journal audits as a run.

use crate::checks::are_explained;
use crate::gate::Meeting;
use crate::prepared::{config, prepare};
use crate::site::Site;
use crate::tasks::jobs;
use crate::test_site::TestSite;
use device_threads::JobResult;
use iofd_words::{Config, DeviceNo, Record};
use journal_audit::{Verdict, audit};
use journal_audit_writing::journal;
use std::alloc::Global;
use std::sync::Wait;
use std::thread::Threads;

const DEVICES: u16 = 8;

const JOBS: u32 = 500;

const ROUNDS: u32 = 200;

// Whether the journal explains the results of the devices, of which the last stand first.
fn explains(records: &[Record], seed: u32, all: &[Vec<JobResult>]) -> bool {
    let mut left = DEVICES;
    for results in all {
        if !are_explained(records, seed, DeviceNo(left), JOBS as usize, results) {
            return false;
        }
        left = left.saturating_sub(1);
    }
    left == 0
}

// Whether the records are a run, by their journal.
fn audits(alloc: Global, config: &Config, records: &[Record]) -> bool {
    let Ok(bytes) = journal(alloc, config, records) else {
        return false;
    };
    match audit(alloc, &bytes) {
        Ok(Verdict::Run { records: count }) => count == records.len(),
        _ => false,
    }
}

// Gives each device its jobs.
fn equip_all<S: Site>(alloc: Global, site: &mut S, seed: u32) {
    for before in 0..DEVICES {
        site.equip(jobs(alloc, seed, DeviceNo(before + 1), JOBS));
    }
}

// Whether the journal of a new server explains what its devices do, and is a run.
fn is_explained<S: Site, R: Threads + Wait + Sync>(
    rt: &R,
    alloc: Global,
    config: &Config,
    mut site: S,
    seed: u32,
) -> bool {
    let prepared = prepare(rt, &mut site, DEVICES + 1);
    equip_all(alloc, &mut site, seed);
    let site = site.run(rt, alloc, &Meeting::of(1), ROUNDS);
    match site.ended(alloc) {
        Some((core, all)) => {
            prepared
                && explains(core.records(), seed, &all)
                && audits(alloc, config, core.records())
        }
        None => false,
    }
}

fn holds<S: Site, R: Threads + Wait + Sync>(rt: &R, alloc: Global, seed: u32) -> bool {
    let Some(config) = config(alloc, DEVICES + 1) else {
        return false;
    };
    match S::opened(alloc, &config) {
        Some(site) => is_explained(rt, alloc, &config, site, seed),
        None => false,
    }
}

#[test]
fn eight_devices_work_while_a_ninth_thread_changes_maps(rt: HostRuntime) {
    for seed in 0..10 {
        assert!(rt; holds::<TestSite, _>(&rt, rt.alloc(), seed), "{seed}");
    }
}
