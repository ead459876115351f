//! Sessions with a journal, over readers and writers that may fail.

use crate::fakes::{Faults, Input, Output};
use iommufd_cli::{CliFault, session};
use std::alloc::Global;
use std::io::ErrorKind;

const SCRIPT: &str = "pool 2
user 1
file 1
begin
umap 1 10000
umap 1 11000
";

const LINES: &str = "ok frame 0
ok frame 1
journal 494f46444a4e4c3202000000010001000000000000000100010000000100\
00000201000000010000000000050000000000000000\
00000201000010010000000000050100000000000000
";

// An end that doesn't fail.
const GOOD: Faults = (usize::MAX, usize::MAX, ErrorKind::Other);

fn status_of(ended: Result<u8, CliFault>) -> Option<u8> {
    match ended {
        Ok(status) => Some(status),
        Err(_) => None,
    }
}

// Whether a session of the script with a journal ends by this status where writes fail so, and has written this text.
fn has_written(alloc: Global, writes: Faults, text: &[u8], status: Option<u8>) -> bool {
    let mut reader = Input::new(SCRIPT, GOOD);
    let mut writer = Output::new(text, writes);
    let ended = status_of(session(alloc, &mut reader, &mut writer, true));
    ended == status && writer.calls().is_some()
}

#[test]
fn a_session_ends_with_its_journal(rt: HostRuntime) {
    assert!(rt; has_written(rt.alloc(), GOOD, LINES.as_bytes(), Some(0)));
}

#[test]
fn a_write_of_the_journal_fails(rt: HostRuntime) {
    // The lines are written together, and the second write is the journal's.
    let bad = (usize::MAX, 1, ErrorKind::BrokenPipe);
    assert!(rt; has_written(rt.alloc(), bad, b"ok frame 0\nok frame 1\n", None));
}
