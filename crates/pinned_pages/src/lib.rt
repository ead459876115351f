//! A memory object: pages of a user that a MAP named. Page tables pin all of them or none, accesses any run. A pin
//! keeps the frame that the page was when it was pinned, whatever its user does, and each pinned page of an object is
//! charged to its user once.
#![tactic(auto)]

mod access_pins;
mod frames;
mod pages;
mod pin_rows;

pub use access_pins::AccessPin;
pub use pages::Pages;
