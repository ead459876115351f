//! DIRTY_ENABLE and DIRTY_REPORT, by which it is told which pages devices have written through a page table: each with
//! the test that refuses it, and what it does or tells.
#![tactic(auto)]

pub mod dirty_enable;
pub mod dirty_report;
