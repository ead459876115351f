//! What a call of ioctl answers.

use iofd_words::Errno;
use std::alloc::{Allocator, Global};

/// What a call of ioctl answers.
pub struct IoctlAnswer<A: Allocator = Global> {
    /// The error; None where the call succeeded.
    pub errno: Option<Errno>,
    /// What is written back over the caller's structure. Where the call failed that is nothing, but for an
    /// IOAS_IOVA_RANGES with too few places (EMSGSIZE).
    pub bytes: Vec<u8, A>,
}

// Written out, so that it is proved here alone and not in each crate that drops one.
impl<A: Allocator> Drop for IoctlAnswer<A> {
    fn drop(self) {
        let IoctlAnswer { errno: _, bytes: _ } = self;
    }
}
