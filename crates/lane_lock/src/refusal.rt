//! Why a lock doesn't serve a call at once, and what comes back where it can't be made.

use crate::kept::Kept;
use crate::lock::LaneLock;
use crate::pass::Pass;
use crate::table::Share;
use iofd_words::{NoMemory, PassNo};

/// A lane that was met held, and the pass that holds it.
#[derive(Clone, Copy, Debug, PartialEq, Eq)]
pub struct Busy {
    pub lane: u16,
    pub holder: PassNo,
}

/// Why a read can't be had now.
#[derive(Clone, Copy, Debug, PartialEq, Eq)]
pub enum NotNow {
    /// The lane of the pass is held.
    Busy(Busy),
    /// The lane of the pass is empty: a share of the value was refused it, and no commit has filled it since.
    Shared,
}

/// Why a commit made no record.
#[derive(Clone, Copy, Debug, PartialEq, Eq)]
pub enum CommitError {
    /// The act wanted memory.
    Memory(NoMemory),
    /// A share of the value was still held elsewhere.
    Shared,
}

/// There was no memory for a lock. The value comes back, or a share of it.
#[derive(Drop)]
pub enum NewError<K: Kept> {
    Value(K),
    Share(Share<K>),
}

/// Why a lock didn't give its value back.
#[derive(Drop)]
pub enum CloseError<K: Kept> {
    /// A pass is missing, or one still holds a lane, since a guard was forgotten. Lock and passes come back.
    NotAll {
        lock: LaneLock<K>,
        passes: Vec<Pass<K>>,
    },
    /// A share of the value is still held elsewhere. The lock has ended; this is another share.
    Shared(Share<K>),
}
