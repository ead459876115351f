//! A reader-writer lock whose kept value has one history: a list of records, each made under the lock by one pass.
//! Readers share, each on the lane of its pass; a writer takes all lanes. Contracts say what each pass has seen of
//! the history and made in it.
#![tactic(auto)]

mod close;
mod kept;
mod lock;
mod meet;
mod new;
mod pass;
mod plays;
mod read;
mod read_guard;
mod refusal;
mod steps;
mod table;
mod try_lock;
mod upper_lanes;
mod wait;
mod write;
mod write_guard;

pub use kept::Kept;
pub use lock::LaneLock;
pub use pass::Pass;
pub use read_guard::ReadGuard;
pub use refusal::{Busy, CloseError, CommitError, NewError, NotNow};
pub use table::{Known, LaneRule, Setup, Share, View};
pub use write_guard::WriteGuard;
