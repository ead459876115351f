//! A line of text, kept in place: writing it takes no memory.

ghost use Rattle.std.specs.Prelude.{◌≡◌, ◌≤◌, ◌+◌, ◌*◌, ◌++◌, [], length};
ghost use Rattle.std.specs.Prelude.{decimal, false};
ghost use Rattle.std.specs.Fmt.{digits};
ghost use Rattle.hex.specs.Hex.{encode_lower};

use crate::byte_digits::put_hex_bytes;
use crate::digits::put_hex_number;
use itoa::Buffer;
use std::marker::Model;

/// A line of at most 192 bytes, of which a contract sees those written so far. The longest reply line,
/// that of a read of 64 bytes, has 132.
#[derive(Drop)]
pub struct Line {
    // The bytes, and behind them any others.
    bytes: [u8; Line::MAX],
    len: usize,
}

impl Model for Line {
    ghost use Rattle.std.specs.Prelude.{List, ℕ, ◌≤◌, take};

    ghost Value = { List ℕ };

    ghost view = { λ line. take line.len line.bytes };

    ghost invariant = { λ line. line.len ≤ 192 };
}

impl Line {
    /// The most bytes of a line.
    pub const MAX: usize = 192;

    /// A line of no bytes.
    pub fn new() -> Line
        ensures { result ≡ [] }
    {
        Line {
            bytes: [0; Line::MAX],
            len: 0,
        }
    }

    /// Forgets the bytes, so that another line can be written in place.
    pub(crate) fn clear(&mut self)
        ensures { self.new ≡ [] }
    {
        self.len = 0;
    }

    /// The line's bytes.
    pub fn as_slice(&self) -> &[u8]
        ensures bytes { result.now ≡ self.now }
        ensures most { length result.now ≤ 192 }
    {
        &self.bytes[..self.len]
    }

    /// Adds these bytes, for which there has to be room.
    pub(crate) fn push_slice(&mut self, bytes: &[u8])
        requires { length self.old + length bytes.now ≤ 192 }
        ensures bytes { self.new ≡ self.old ++ bytes.now }
        ensures count { length self.new ≡ length self.old + length bytes.now }
    {
        let end = self.len + bytes.len();
        self.bytes[self.len..end].copy_from_slice(bytes);
        self.len = end;
    }

    /// Adds a number in decimal, with no leading zeros: at most 20 digits.
    pub(crate) fn push_decimal(&mut self, number: u64)
        requires { length self.old ≤ 172 }
        ensures bytes { self.new ≡ self.old ++ decimal number }
        ensures count { length self.new ≤ length self.old + 20 }
    {
        self.push_slice(Buffer::new().format(number).as_bytes());
    }

    /// Adds a number in lower-case hex, with no leading zeros: at most 16 digits.
    pub(crate) fn push_hex_number(&mut self, number: u64)
        requires { length self.old ≤ 176 }
        ensures bytes { self.new ≡ self.old ++ digits 16 false number }
        ensures count { length self.new ≤ length self.old + 16 }
    {
        let mut buffer = [0; 16];
        let start = put_hex_number(number, &mut buffer);
        self.push_slice(&buffer[start..]);
    }

    /// Adds bytes in lower-case hex, two digits a byte.
    pub(crate) fn push_hex(&mut self, bytes: &[u8])
        requires { length self.old + 2 * length bytes.now ≤ 192 }
        ensures bytes { self.new ≡ self.old ++ encode_lower bytes.now }
        ensures count { length self.new ≡ length self.old + 2 * length bytes.now }
    {
        let end = self.len + 2 * bytes.len();
        put_hex_bytes(bytes, &mut self.bytes[self.len..end]);
        self.len = end;
    }
}
