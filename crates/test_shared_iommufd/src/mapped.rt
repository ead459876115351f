//! Servers whose user has pages, all of them mapped for the device.

use crate::opened::{Size, opened};
use crate::ports::is_answered;
use crate::rows::are_rows;
use crate::served::Caller;
use crate::test_server::TestServer;
use crate::work::{APART, PAGES, USER, va_of};
use iofd_words::{Event, FrameNo, Reply};
use std::alloc::Global;
use std::sync::Wait;

// All pages are mapped, and the device is bound.
const MAPPED: &str = "\
1 ioctl 1 3b81 0c0000000000000000000000 = 0 0c0000000000000001000000
1 ioctl 1 3b85 28000000070000000100000000000000000001000000000000000400000000000000010000000000 \
= 0 28000000070000000100000000000000000001000000000000000400000000000000010000000000
1 bind 1 1 = ok id 2
";

// Whether the user gets its pages, in the order of the frames, and all are mapped.
fn are_mapped<C: Caller>(global: Global, caller: &mut C) -> bool {
    for page in 0..PAGES {
        let made = caller.call(Event::UserMap(USER, va_of(page)));
        if !is_answered(made, Reply::Frame(FrameNo(page))) {
            return false;
        }
    }
    are_rows(global, caller, MAPPED)
}

// The caller, once they are. Where they aren't, what is done next doesn't pass.
fn mapped<C: Caller>(global: Global, mut caller: C) -> C {
    let _mapped = are_mapped(global, &mut caller);
    caller
}

/// A server with so many lanes, passes for so many threads, and all pages mapped, whose port keeps so many.
pub fn ready<'a, R: Wait>(
    rt: &'a R,
    global: Global,
    threads: u8,
    lanes: u16,
    keeps: u16,
) -> Option<TestServer<'a, R>> {
    let size = Size {
        frames: 128,
        pinned: u64::from(PAGES),
        lanes,
        keeps,
        others: u16::from(threads) * APART,
    };
    match opened(rt, global, &size) {
        Some(server) => Some(mapped(global, server)),
        None => None,
    }
}
