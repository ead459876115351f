//! A server's journal while it is open.

use crate::rows::count_records;
use crate::served::Caller;
use journal_audit::{Verdict, audit};
use std::alloc::Global;

/// How many records there are, if the auditor says of the journal that it is a run of so many.
pub fn audited<C: Caller>(global: Global, caller: &mut C) -> Option<u64> {
    let count = count_records(caller);
    match caller.journal() {
        Ok(journal) if is_run(global, &journal, count) => Some(count),
        _ => None,
    }
}

fn is_run(global: Global, journal: &[u8], count: u64) -> bool {
    match audit(global, journal) {
        Ok(Verdict::Run { records }) => records as u64 == count,
        _ => false,
    }
}
