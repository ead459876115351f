//! Why a call that doesn't wait did nothing.

use lane_lock::NotNow;

/// Why a call that doesn't wait did nothing.
#[derive(Clone, Copy, PartialEq, Eq, Debug)]
pub enum TryError<E> {
    /// A lane is held, or the lane of the pass is empty: the call can't be served now.
    NotNow(NotNow),
    /// The call was served, and failed.
    Call(E),
}
