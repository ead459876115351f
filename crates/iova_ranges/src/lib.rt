//! Sets of I/O virtual addresses: which addresses an address space may use, and where in them new areas fit. A set
//! is seen as its spans by rising start, of which no two overlap or adjoin.
#![tactic(auto)]

mod adding;
mod allowed;
mod allowed_ranges;
mod between;
mod fitting;
mod gaps;
pub mod laws;
mod lookups;
mod range_set;
mod removing;
mod reserved;
mod sorting;

pub use allowed::Allowed;
pub use allowed_ranges::{AllowedRow, AllowedTable};
pub use fitting::starts_rise;
pub use range_set::RangeSet;
pub use reserved::{Reserved, ReservedSpan};
pub use sorting::by_start;
