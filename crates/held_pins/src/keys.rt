//! Pins, their pages and who holds them, as the keys of maps.

ghost use Rattle.std.specs.Prelude.{◌≡◌, ◌≤◌, ◌++◌};
ghost use Rattle.std.specs.Hash as fed;
ghost use Rattle.std.specs.Cmp.Rules.{hashing};
ghost use Rattle.std.proofs.Common.{rules};
ghost use Rattle.held_pins.specs.Held.{at_page, exchanged, holder_of, key_of, is_reached, page_in};
ghost use Rattle.held_pins.specs.Words.{object_word, page_word, pair_word, tag};

use crate::pin::HeldPin;
use iofd_words::{FileNo, ObjId, PAGE_SIZE, Span};
use std::hash::{Hash, Hasher};

/// All that a pin is. The fields stand so that it takes 32 bytes, half a line of a cache.
#[derive(Clone, Copy, PartialEq, Eq, PartialOrd, Ord)]
pub(crate) struct PinKey {
    pub access: u32,
    pub ioas: u32,
    pub first: u64,
    pub last: u64,
    pub file: u16,
    pub write: bool,
}

/// A page of an address space of a file, its object, as an access object has pinned it, for writes too or for reads
/// alone. So pages of one address space stand side by side, by number; where the two objects are exchanged, those of
/// one access object.
#[derive(Clone, Copy, PartialEq, Eq, PartialOrd, Ord)]
pub(crate) struct PageKey {
    pub file: u16,
    pub object: u32,
    pub page: u64,
    pub access: u32,
    pub write: bool,
}

/// An access object.
#[derive(Clone, Copy, PartialEq, Eq, PartialOrd, Ord)]
pub(crate) struct HolderKey {
    pub file: u16,
    pub access: u32,
}

// Keys are hashed as words of 64 bits, two to a write where there are two: each write costs a multiplication.

impl Hash for PinKey {
    ghost hash_input = { λ key. fed.u128 (pair_word key.first key.last)
        ++ fed.u128 (pair_word (object_word key.access key.ioas) (tag key.file key.write)) };

    ghost respects_eq = { Prim.search (hashing, rules) };

    fn hash<H: Hasher>(&self, state: &mut H) {
        state.write_u128(pair_word(self.first, self.last));
        let ids = object_word(self.access, self.ioas);
        state.write_u128(pair_word(ids, tag(self.file, self.write)));
    }
}

impl Hash for PageKey {
    ghost hash_input = { λ key. fed.u128 (pair_word (page_word key.page key.file key.write)
        (object_word key.object key.access)) };

    ghost respects_eq = { Prim.search (hashing, rules) };

    fn hash<H: Hasher>(&self, state: &mut H) {
        let page = page_word(self.page, self.file, self.write);
        state.write_u128(pair_word(page, object_word(self.object, self.access)));
    }
}

impl Hash for HolderKey {
    ghost hash_input = { λ key. fed.u64 (object_word key.access key.file) };

    ghost respects_eq = { Prim.search (hashing, rules) };

    fn hash<H: Hasher>(&self, state: &mut H) {
        state.write_u64(object_word(self.access, self.file as u32));
    }
}

/// A file, and whether for writes too: 17 bits.
fn tag(file: u16, write: bool) -> u64
    ensures { result ≡ tag file write }
{
    file as u64 * 2 + write as u64
}

/// Two numbers of 32 bits side by side.
fn object_word(high: u32, low: u32) -> u64
    ensures { result ≡ object_word high low }
{
    ((high as u64) << 32) + low as u64
}

/// The number of a page, and the tag in the highest 17 bits. A number from 2^47 on reaches into these: there unlike
/// pages may have the same word, and are still told apart as keys.
fn page_word(page: u64, file: u16, write: bool) -> u64
    ensures { result ≡ page_word page file write }
{
    page.wrapping_add(tag(file, write) << 47)
}

/// Two words side by side.
fn pair_word(low: u64, high: u64) -> u128
    ensures { result ≡ pair_word low high }
{
    ((high as u128) << 64) + low as u128
}

/// The key of a pin.
pub(crate) fn key_of(pin: &HeldPin) -> PinKey
    ensures value { result ≡ key_of pin.now }
    ensures ordered { pin.now.span.first ≤ pin.now.span.last }
{
    PinKey {
        access: pin.access.0,
        ioas: pin.ioas.0,
        first: pin.span.first(),
        last: pin.span.last(),
        file: pin.file.0,
        write: pin.write,
    }
}

/// The key of the first page of a pin.
pub(crate) fn first_of(pin: &HeldPin) -> PageKey
    ensures { result ≡ page_in pin.now.file pin.now.ioas pin.now.span.first pin.now.access pin.now.write }
{
    PageKey::new(pin.file, pin.ioas, pin.span.first(), pin.access, pin.write)
}

impl HolderKey {
    /// The key of an access object of the file.
    pub(crate) fn new(file: FileNo, access: ObjId) -> HolderKey
        ensures { result ≡ holder_of file access }
    {
        HolderKey {
            file: file.0,
            access: access.0,
        }
    }
}

impl PageKey {
    /// The key of the page at the address, in bytes, of an object of the file, pinned by the access object, for writes
    /// too where `write` is true.
    pub(crate) fn new(
        file: FileNo,
        object: ObjId,
        address: u64,
        access: ObjId,
        write: bool,
    ) -> PageKey
        ensures { result ≡ page_in file object address access write }
    {
        PageKey {
            file: file.0,
            object: object.0,
            page: address / PAGE_SIZE,
            access: access.0,
            write,
        }
    }

    /// The key of another page of the same object, pinned alike, by its number.
    pub(crate) fn at(self, page: u64) -> PageKey
        ensures { result ≡ at_page self page }
    {
        PageKey {
            file: self.file,
            object: self.object,
            page,
            access: self.access,
            write: self.write,
        }
    }

    /// The key with its object and its access object exchanged.
    pub(crate) fn exchanged(self) -> PageKey
        ensures { result ≡ exchanged self }
    {
        PageKey {
            file: self.file,
            object: self.access,
            page: self.page,
            access: self.object,
            write: self.write,
        }
    }

    /// Whether it is of this object of the file, and of a page at which the span has an address.
    pub(crate) fn is_reached(self, file: FileNo, object: ObjId, span: Span) -> bool
        ensures { result ≡ is_reached file object span self }
    {
        self.file == file.0
            && self.object == object.0
            && span.first() / PAGE_SIZE <= self.page
            && self.page <= span.last() / PAGE_SIZE
    }
}
