//! Passes in four threads of their own make each record once.

use crate::mapped::ready;
use crate::served::Whole;
use crate::work::{PAGES, Task, byte_of, page_of, va_of};
use iofd_words::{Event, PassNo, Record};
use std::alloc::Global;
use std::sync::Wait;
use std::thread::Threads;

const THREADS: u8 = 4;

// Two threads take the same lane.
const LANES: u16 = 2;

// How many operations each makes, looks and calls in turn.
const COUNT: u32 = 200;

const CALLS: usize = 100;

// The passes of four threads.
static WORKERS: [PassNo; 4] = [PassNo(4), PassNo(13), PassNo(22), PassNo(31)];

// Whether the record is the pass's call, as its operation of this number.
fn is_call(record: &Record, pass: PassNo, number: u32) -> bool {
    match record.event() {
        Event::UserWrite(_, va, bytes) => {
            *va == va_of(page_of(pass)) && bytes.as_slice().first() == Some(&byte_of(number))
        }
        _ => false,
    }
}

// Whether the records of the pass are its calls, in their order.
fn has_calls(records: &[Record], pass: PassNo) -> bool {
    let mut number = 1;
    for record in records {
        if record.pass() == pass {
            if number >= COUNT || !is_call(record, pass, number) {
                return false;
            }
            number += 2;
        }
    }
    number == COUNT + 1
}

// Whether these are the calls of four passes, behind those by which the pages were mapped.
fn are_of_four(records: &[Record]) -> bool {
    records.len() == PAGES as usize + 3 + WORKERS.len() * CALLS
        && WORKERS.iter().all(|pass| has_calls(records, *pass))
}

// Whether the passes look and call at once, each at a page of its own, and the server ends with these calls.
fn happens<R: Threads + Wait + Sync, W: Whole>(rt: &R, mut server: W) -> bool {
    let passed = server.crowd(rt, None, THREADS, &Task::Halves, COUNT);
    match server.ended() {
        Some(core) => {
            passed == u64::from(THREADS) * u64::from(COUNT) && are_of_four(core.records())
        }
        None => false,
    }
}

fn happens_to_new<R: Threads + Wait + Sync>(rt: &R, global: Global) -> bool {
    match ready(rt, global, THREADS, LANES, 1) {
        Some(server) => happens(rt, server),
        None => false,
    }
}

#[test]
fn four_passes_make_each_record_once(rt: HostRuntime) {
    assert!(rt; happens_to_new(&rt, rt.alloc()));
}
