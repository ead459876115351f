//! What the server keeps of the world: the state, look-ups in it, and the changes that several events have in common.
//! The definitions say when a state shows a world, and what a step makes of it.
#![tactic(auto)]

pub mod access_changes;
pub mod accesses;
pub mod accounts;
pub mod addresses;
pub mod area_changes;
pub mod counts;
pub mod devices;
pub mod frames;
mod held;
pub mod lookups;
pub mod release;
mod state;
pub mod tables;
pub mod usable;

pub use held::Held;
pub use state::State;
