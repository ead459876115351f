//! The bytes of one access.

ghost use Rattle.std.specs.Prelude.{◌≡◌, ◌↔◌, ◌≤◌, ◌<◌, ◌-◌, ◌++◌, length, take, drop, replicate};
ghost use Rattle.std.specs.Prelude.{IsSome, IfSome};

use std::marker::Model;

/// 1 to 64 bytes, which one access reads or writes.
#[derive(Clone, Copy, PartialEq, Eq)]
pub struct Burst {
    // The bytes, and zeros behind them.
    bytes: [u8; 64],
    len: u8,
}

impl Model for Burst {
    ghost use Rattle.std.specs.Prelude.{List, ℕ};

    ghost Value = { List ℕ };

    ghost use Rattle.iofd_words.specs.Burst.{bytes_of, fields_of, IsBurst, fields_of-bytes_of};

    ghost view = { bytes_of };

    ghost invariant = { IsBurst };

    ghost inverse = { fields_of };

    ghost inverse_ok = { fields_of-bytes_of };
}

impl Burst {
    /// The most bytes of one access.
    pub const MAX: usize = 64;

    /// The access of these bytes; None where there are none, or more than 64.
    pub fn new(bytes: &[u8]) -> Option<Burst>
        ensures fits { IsSome result ↔ ((0 < length bytes.now) × (length bytes.now ≤ 64)) }
        ensures value { IfSome result (λ burst. burst ≡ bytes.now) }
    {
        if bytes.is_empty() || bytes.len() > Burst::MAX {
            return None;
        }
        Some(Burst {
            bytes: padded(bytes),
            len: bytes.len() as u8,
        })
    }

    /// The access of the first `len` of these bytes, behind which are zeros; None where `len` is 0, or more than 64.
    pub fn from_padded(bytes: [u8; 64], len: usize) -> Option<Burst>
        requires zeros { drop len bytes ≡ replicate (64 - len) 0 }
        ensures fits { IsSome result ↔ ((0 < len) × (len ≤ 64)) }
        ensures value { IfSome result (λ burst. burst ≡ take len bytes) }
    {
        if len == 0 || len > Burst::MAX {
            return None;
        }
        Some(Burst {
            bytes,
            len: len as u8,
        })
    }

    /// The bytes.
    pub fn as_slice(&self) -> &[u8]
        ensures value { result.now ≡ self.now }
        ensures some { 0 < length result.now }
        ensures few { length result.now ≤ 64 }
    {
        &self.bytes[..self.len as usize]
    }
}

// The bytes, and zeros behind them.
fn padded(bytes: &[u8]) -> [u8; 64]
    requires { length bytes.now ≤ 64 }
    ensures { result ≡ bytes.now ++ replicate (64 - length bytes.now) 0 }
{
    let mut padded = [0; 64];
    for (i, byte) in bytes.iter().enumerate() {
        padded[i] = *byte;
    }
    padded
}
