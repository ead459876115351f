//! Which tables of page tables a journal's record moves, decided over a world of plain vectors.
#![tactic(auto)]

pub mod coming;
pub mod frames;
mod gathered;
mod given;
mod idle;
pub mod missing;
pub mod moves;
mod place;

pub use place::{Missing, Pages};
