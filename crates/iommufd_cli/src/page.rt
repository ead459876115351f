//! Lines that are handed on together: a writer is called once for many.

ghost use Rattle.std.specs.Prelude.{◌≡◌, ◌≤◌, ◌+◌, ◌++◌, [], length};

use std::marker::Model;

/// At most 65,536 bytes, of which a contract sees those that were pushed so far.
#[derive(Drop)]
pub(crate) struct Page {
    // The bytes, and behind them any others.
    bytes: [u8; Page::MAX],
    len: usize,
}

impl Model for Page {
    ghost use Rattle.std.specs.Prelude.{List, ℕ, ◌≤◌, take};

    ghost Value = { List ℕ };

    ghost view = { λ page. take page.len page.bytes };

    ghost invariant = { λ page. page.len ≤ 65536 };
}

impl Page {
    /// The most bytes of a page.
    const MAX: usize = 0x1_0000;

    /// A page of no bytes.
    pub fn new() -> Page
        ensures { result ≡ [] }
    {
        Page {
            bytes: [0; Page::MAX],
            len: 0,
        }
    }

    /// For how many more bytes there is room.
    pub fn room(&self) -> usize
        ensures { length self.now + result ≡ 65536 }
    {
        Page::MAX - self.len
    }

    /// The page's bytes.
    pub fn as_slice(&self) -> &[u8]
        ensures { result.now ≡ self.now }
    {
        &self.bytes[..self.len]
    }

    /// Forgets the bytes, so that others can be pushed in place.
    pub fn clear(&mut self)
        ensures { self.new ≡ [] }
    {
        self.len = 0;
    }

    /// Adds these bytes, for which there has to be room.
    pub fn push_slice(&mut self, bytes: &[u8])
        requires { length self.old + length bytes.now ≤ 65536 }
        ensures { self.new ≡ self.old ++ bytes.now }
    {
        let end = self.len + bytes.len();
        self.bytes[self.len..end].copy_from_slice(bytes);
        self.len = end;
    }
}
