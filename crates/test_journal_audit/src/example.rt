//! The example of the journals' page: a user is given two pages.

use journal_audit::{Verdict, audit};
use std::alloc::Allocator;

/// Of version 1: a pool of two frames, a user with a limit of one page, a file of this user, no device, one pass; then
/// two records: a UserMap of user 1 at 0x10000 that was answered frame 0, and one at 0x11000 that was answered frame 1.
pub const EXAMPLE: [u8; 74] = *b"IOFDJNL1\x02\0\0\0\x01\0\x01\0\0\0\0\0\0\0\x01\0\x01\0\0\0\x01\0\
      \0\0\x02\x01\0\0\0\x01\0\0\0\0\0\x05\0\0\0\0\0\0\0\0\
      \0\0\x02\x01\0\0\x10\x01\0\0\0\0\0\x05\x01\0\0\0\0\0\0\0";

/// Whether an auditor says this of these bytes.
pub fn says<A: Allocator + Copy>(alloc: A, bytes: &[u8], verdict: Verdict) -> bool {
    match audit(alloc, bytes) {
        Ok(said) => said == verdict,
        Err(_) => false,
    }
}

/// The example with another byte at this offset.
pub fn altered(offset: usize, byte: u8) -> [u8; 74] {
    let mut bytes = EXAMPLE;
    if let Some(place) = bytes.get_mut(offset) {
        *place = byte;
    }
    bytes
}
