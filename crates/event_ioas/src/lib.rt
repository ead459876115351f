//! The events of address spaces and of the addresses that they allow, and the question for those that they can use:
//! each with the test that refuses it, and what it does.
#![tactic(auto)]

pub mod allow_iovas;
pub mod ioas_alloc;
mod unusable;
pub mod usable_ranges;
