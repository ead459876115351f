//! Which pages devices have written: the marked pages of one page table, and the page tables whose pages are tracked.
#![tactic(auto)]

mod bits;
mod dirty_tables;
mod marks;

pub use dirty_tables::DirtyTables;
pub use marks::Marks;
