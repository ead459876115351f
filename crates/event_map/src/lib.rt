//! The events by which areas come, MAP and COPY: each with the test that refuses it, and what it does.
#![tactic(auto)]

mod choice;
pub mod copy;
pub mod map;
mod mapping;
mod placing;
