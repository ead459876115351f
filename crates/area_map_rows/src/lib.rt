//! Areas in rows: the areas of an address space by rising start, in rows of few, so that an insertion or a removal
//! moves few of them. A row is seen as the list of its areas, and rows as the areas of all, one row behind the other.
#![tactic(auto)]

pub mod changes;
pub mod gaps;
mod iter;
pub mod leaving;
pub mod lookups;
mod marking;
mod row;
mod search;
pub mod totals;

pub use iter::Iter;
pub use marking::Change;
pub use row::{ROW, Row};
