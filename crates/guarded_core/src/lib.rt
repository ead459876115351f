//! The core as a lock keeps it, and what is done under a guard of that lock: a question is asked, or an act is applied.
//! Beside it what a device's port asks: what an access finds, by the translations that the port keeps or by a walk.
#![tactic(auto)]

mod finding;
mod guarded;
mod kept_core;
mod try_error;

pub use finding::{PortRead, PortWalk};
pub use guarded::{commit, show, try_commit, try_commit_later, try_show, try_show_later};
pub use kept_core::{Entry, KeptCore, ObjectOf};
pub use try_error::TryError;
