//! Whole sessions, over readers and writers that fail at each of their calls.

use crate::fakes::{Faults, Input, Output};
use iommufd_cli::{CliFault, InputFault, Served, serve, session};
use std::alloc::Global;
use std::io::ErrorKind;

// A step for each kind of line: what is written back, the ranges and the notices that are, whose text takes memory, and
// short ones.
const SCRIPT: &str = "pool 8
user 4
file 1
begin
ioctl 1 3b81 0c0000000000000000000000
ioctl 1 3b84 2000000001000000010000000000000000000000000000000000000000000000
umap 1 10000
uwrite 1 10ffe beef
uread 1 10ffe 2
uread 1 11000 1
ioctl 1 3b85 28000000070000000100000000000000000001000000000000100000000000000010000000000000
access 1
aattach 1 2 1
apin 1 2 1000 1000 w
awrite 1 2 1fff ad
ioctl 1 3b86 180000000100000000100000000000000010000000000000
notices 1 2
aread 1 2 1ffe 2
aunpin 1 2 1000 1000 w
aunpin 1 2 1000 1000 w
free
";

const LINES: &str = "0 0c0000000000000001000000
0 20000000010000000100000000000000000000000000000000100000000000000000000000000000ffffffffffffffff
ok frame 0
ok
ok beef
14 Absent
0 28000000070000000100000000000000000001000000000000100000000000000010000000000000
ok id 2
ok
ok
ok
11 Pending
ok 1000-1fff
ok bead
ok
22 NotHeld
ok 7
";

// How a session ends.
#[derive(Clone, Copy, PartialEq, Eq)]
enum End {
    // By this status.
    Status(u8),
    // By a read or a write that failed, or one that took nothing.
    BadRead,
    BadWrite,
    FullWriter,
    TooLong,
}

fn end_by_write(kind: ErrorKind) -> End {
    match kind {
        ErrorKind::WriteZero => End::FullWriter,
        _ => End::BadWrite,
    }
}

// How a session over these ends.
fn end_of(alloc: Global, reader: &mut Input<'_>, writer: &mut Output<'_>) -> End {
    match session(alloc, reader, writer, false) {
        Ok(status) => End::Status(status),
        Err(CliFault::Input(InputFault::TooLong)) => End::TooLong,
        Err(CliFault::Input(InputFault::Read(_))) => End::BadRead,
        Err(CliFault::Output(error)) => end_by_write(error.kind()),
    }
}

// An end that doesn't fail.
const GOOD: Faults = (usize::MAX, usize::MAX, ErrorKind::Other);

// How a session of the script ends where reads fail so and writes so, and by how many writes this text was written,
// if it was and nothing else.
fn ended(
    alloc: Global,
    script: &str,
    (reads, writes): (Faults, Faults),
    text: &[u8],
) -> (End, Option<usize>) {
    let mut reader = Input::new(script, reads);
    let mut writer = Output::new(text, writes);
    let end = end_of(alloc, &mut reader, &mut writer);
    (end, writer.calls())
}

// Whether the lines of the script are written where its server is left to the caller.
fn is_served(alloc: Global) -> bool {
    let mut reader = Input::new(SCRIPT, GOOD);
    let mut writer = Output::new(LINES.as_bytes(), GOOD);
    let status = serve(alloc, &mut reader, &mut writer, false, &mut Served::new());
    matches!(status, Ok(0)) && writer.calls() == Some(1)
}

#[test]
fn a_server_left_to_the_caller(rt: HostRuntime) {
    assert!(rt; is_served(rt.alloc()));
}

// Whether a read that fails at this call ends the session, and nothing is written.
fn ends_at_read(alloc: Global, bad: usize) -> bool {
    let reads = (32, bad, ErrorKind::BrokenPipe);
    ended(alloc, SCRIPT, (reads, GOOD), b"") == (End::BadRead, Some(0))
}

// Whether a call that is interrupted is tried again, and all is written.
fn is_tried_again(alloc: Global, faults: (Faults, Faults)) -> bool {
    let (end, calls) = ended(alloc, SCRIPT, faults, LINES.as_bytes());
    end == End::Status(0) && calls.is_some()
}

#[test]
fn failed_reads(rt: HostRuntime) {
    for bad in 0..SCRIPT.len() / 32 + 2 {
        let reads = (32, bad, ErrorKind::Interrupted);
        let is_so = ends_at_read(rt.alloc(), bad) && is_tried_again(rt.alloc(), (reads, GOOD));
        assert!(rt; is_so, "at call {bad}");
    }
}

// Whether a write that fails at this call, each of at most so many bytes, ends the session there, and this is written;
// and one that is interrupted is tried again.
fn may_fail_at_write(alloc: Global, most: usize, bad: usize, text: &[u8]) -> bool {
    let (fails, is_late) = (
        (most, bad, ErrorKind::BrokenPipe),
        (most, bad, ErrorKind::Interrupted),
    );
    ended(alloc, SCRIPT, (GOOD, fails), text) == (End::BadWrite, Some(bad.saturating_add(1)))
        && is_tried_again(alloc, (GOOD, is_late))
}

#[test]
fn failed_writes(rt: HostRuntime) {
    // All the lines are handed on together, and each call takes so many bytes of them.
    let all = LINES.as_bytes();
    for bad in 0..all.len() / 64 {
        assert!(rt;
            may_fail_at_write(rt.alloc(), 64, bad, &all[..64 * bad]),
            "at write {bad}"
        );
    }
}

#[test]
fn bytes_written_one_by_one(rt: HostRuntime) {
    let all = LINES.as_bytes();
    for bad in 0..all.len() {
        assert!(rt;
            may_fail_at_write(rt.alloc(), 1, bad, &all[..bad]),
            "at byte {bad}"
        );
    }
}

// Whether the first call of a writer that takes no byte ends the session.
fn ends_at_full_writer(alloc: Global, script: &str) -> bool {
    let writes = (0, 9, ErrorKind::Other);
    ended(alloc, script, (GOOD, writes), b"") == (End::FullWriter, Some(1))
}

#[test]
fn a_writer_that_takes_nothing(rt: HostRuntime) {
    for script in [SCRIPT, "pool 0\n"] {
        assert!(rt; ends_at_full_writer(rt.alloc(), script));
    }
}
