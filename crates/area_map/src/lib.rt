//! The areas of one I/O address space: which spans are mapped, over which memory, with which rights, and
//! which of them are on their way out. The map is seen as the list of its areas by rising start.
#![tactic(auto)]

mod areas;
mod blocks;
mod gaps;
mod insertion;
mod joining;
mod leaving;
mod removal;

pub use area_map_rows::Iter;
pub use areas::Areas;
pub use insertion::MOST_AREAS;
