//! The world of the definitions as plain vectors, and the questions that the definitions ask of it.
#![tactic(auto)]

pub mod access_pins;
pub mod allowed;
pub mod areas;
pub mod attachments;
pub mod files;
pub mod frames;
pub mod keeping;
pub mod memory;
mod numbers;
pub mod objects;
pub mod over;
pub mod pages;
mod pairs;
pub mod pins;
pub mod tables;
pub mod tracked;
mod world;

pub use numbers::Numbers;
pub use pairs::Pairs;
pub use world::{AllowedRow, World};
