//! The pages that a pin of an access object pins: those of the areas under its span.
#![tactic(auto)]

mod runs;
mod spans;

pub use runs::{pin_all, unpin_all};
pub use spans::{meeting, run_in};
