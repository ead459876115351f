//! Spans of pages in one hardware page table, in the words of the definitions: how many tables a span lacks, how many
//! the areas of an address space need, and spans that are mapped or cleared, page after page.
#![tactic(auto)]

mod idle;
mod laws;
mod mapping;
mod needing;

pub use idle::{count_idle, remove_idle};
pub use laws::mapping_takes_what_is_needed;
pub use mapping::{clear, map};
pub use needing::{needs, tables_for};
