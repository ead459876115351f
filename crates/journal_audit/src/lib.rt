//! The audit of a journal: whether its bytes are those of a run.
#![tactic(auto)]

mod answers;
mod changes;
mod copy;
mod lawful;
mod map;
mod next;
mod pinning;
mod placing;
mod refusals;
mod source;
mod spans;
mod starts;
mod verdict;
mod whole;
mod words;

pub use lawful::step;
pub use verdict::Verdict;
pub use whole::audit;
