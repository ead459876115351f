//! Why no object was added.

use iofd_words::CallError;

/// An insertion that failed. It hands back the value that was to be stored.
#[derive(Debug, Drop)]
pub struct InsertError<V> {
    /// Why it failed.
    pub reason: CallError,
    /// What was to be stored.
    pub value: V,
}
