//! The bytes of a journal, and what they say.
#![tactic(auto)]

mod commands;
mod counted;
mod head;
mod lists;
mod numbers;
mod reading;
mod replies;
mod spelled;
mod steps;
mod version;

pub use commands::is_kept;
pub use head::read_head;
pub use reading::read_record;
pub use replies::{fault_of, typed_reply};
pub use spelled::{ReadError, SpelledRecord, SpelledReply};
pub use version::Version;
