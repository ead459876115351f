//! The core of the server: one step of the policy at a time, and the history of all steps.
#![tactic(auto)]

mod answer_in_place;
mod apply;
mod events;
pub mod laws;
mod look;
mod notices;
mod opening;
mod ranges;
mod turn_counts;

pub use answer_in_place::AnswerInPlace;
pub use apply::{Core, Stamp};
