//! Hardware page tables: second-stage tables of VT-d, with their real entries, in frames of the pool. A page table owns
//! no pool: what ties it to its rows of table frames and its mapped pages is a fact of the pool's words, which each
//! call asks and keeps.
#![tactic(auto)]

mod descent;
mod entry;
mod extension;
mod laws;
pub mod levels;
mod prune;
mod release;
mod table;
mod visit;
mod walk;

pub use laws::{lookups_tell_pages, other_frames_leave_tables, table_frames_are_held};
pub use release::sort_from;
pub use table::Table;
pub use walk::Walk;
