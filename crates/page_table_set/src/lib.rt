//! The hardware page tables of all files, in frames of a pool that is lent to each call: by rising file and id, each
//! over an address space of its file. What a contract sees of them are their objects and roots, and by the words of the
//! pool where each page leads.
#![tactic(auto)]

mod hwpt;
mod idle;
mod insertion;
mod laws;
mod lookups;
mod mapping;
mod over_spans;
mod page_tables;
mod removal;

pub use hwpt::Hwpt;
pub use laws::{leads_tell_page_tables, other_frames_leave_page_tables, words_tell_tables};
pub use page_tables::PageTables;
