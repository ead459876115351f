//! UNMAP, by which areas leave and go: the test that refuses it, and what it does.
#![tactic(auto)]

mod clearing;
mod devices;
mod idle;
pub mod unmap;
mod waiting;
