//! The pins that access objects hold: a contract sees the list of them.
#![tactic(auto)]

mod counted_pages;
mod counts;
mod held_pins;
mod keys;
mod page_counts;
mod pin;
mod pin_counts;

pub use held_pins::HeldPins;
pub use pin::HeldPin;
