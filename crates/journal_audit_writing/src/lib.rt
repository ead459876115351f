//! The bytes of a journal, written.
#![tactic(auto)]

mod events;
mod head;
mod number;
mod records;
mod spelling;
mod whole;

pub use head::write_head;
pub use records::{WriteError, write_record};
pub use whole::{JournalError, journal};
