//! Rows of scripts, one a line of text: how many records the step makes, the step, and behind ` = ` its line.

use crate::served::Caller;
use crate::steps::is_answered;
use iofd_words::Query;
use iommufd_script::{Line, Step, parse_line};
use std::alloc::Global;

// What a row says: how many records the step makes, the step, and its line.
fn row_of(text: &str) -> Option<(u64, Step<'_>, &[u8])> {
    let (told, line) = text.split_once(" = ")?;
    let (made, step) = told.split_once(" ")?;
    match (made.as_bytes(), parse_line(step.as_bytes())) {
        ([digit @ b'0'..=b'9'], Some(Line::Step(step))) => {
            Some((u64::from(*digit - b'0'), step, line.as_bytes()))
        }
        _ => None,
    }
}

/// How many records there are.
pub fn count_records<C: Caller>(caller: &mut C) -> u64 {
    let _answer = caller.look(&Query::FreeFrames);
    caller.seen()
}

// Whether the row's step has its line, and makes so many records.
fn is_row<C: Caller>(global: Global, caller: &mut C, row: &str) -> bool {
    let Some((made, step, line)) = row_of(row) else {
        return false;
    };
    let before = count_records(caller);
    let told = is_answered(global, caller, &step, line, before);
    told && count_records(caller) == before.wrapping_add(made)
}

/// Whether each row's step has its line.
pub fn are_rows<C: Caller>(global: Global, caller: &mut C, rows: &str) -> bool {
    for row in rows.lines() {
        if !is_row(global, caller, row) {
            return false;
        }
    }
    true
}
