//! The pages that accesses pin, by hash: a page's row is found at once, and one more or one less moves at most one
//! other. Memory grows with these pages, whatever else their object has.

ghost use Rattle.std.specs.Prelude.{ℕ, ◌≡◌, ◌==◌, ◌<◌, ◌≤◌, ◌+◌, ◌-◌, ◌^◌, [], None, Some, IsTrue, IfSome, IfNone};
ghost use Rattle.std.specs.Prelude.{OnOk, OnErr};
ghost use Rattle.std.specs.Prelude.{is_some, nat_le, if◌then◌else◌};
ghost use Rattle.std.specs.List.{count_by, range_with_len};
ghost use Rattle.pinned_pages.specs.Access.{are_counted, frame_in, pins_in, row_at};

use crate::access_pins::AccessPin;
use iofd_words::{FrameNo, NoMemory};
use std::alloc::{Allocator, Global};
use std::collections::HashMap;
use std::hash::{BuildHasherDefault, FoldHasher};
use std::marker::Model;

/// The pages of an object on which a pin by an access stands. A contract sees them by rising index, and for how many
/// more there is room.
#[derive(Drop)]
pub(crate) struct PinRows<A: Allocator = Global> {
    rows: HashMap<u64, AccessPin, BuildHasherDefault<FoldHasher>, A>,
}

impl<A: Allocator> Model for PinRows<A> {
    ghost use Rattle.std.specs.Prelude.{◌==◌};
    ghost use Rattle.std.specs.HashMap.{IsUnique, spare};
    ghost use Rattle.pinned_pages.specs.Access.{AccessMap, rising_rows};

    ghost Value = { AccessMap };

    ghost view = { λ map. record { rows = rising_rows map.rows.entries; room = spare map.rows } };

    ghost invariant = { λ map. IsUnique (λ index other. index == other) map.rows };
}

impl<A: Allocator> PinRows<A> {
    /// No pages. It takes no memory.
    pub(crate) fn new(alloc: A) -> PinRows<A>
        ensures { result.rows ≡ [] }
    {
        PinRows {
            rows: HashMap::new(alloc),
        }
    }

    /// How many pages there are, all of which are below some index.
    pub(crate) fn len(&self) -> usize
        ensures { (count : ℕ) → IsTrue (are_counted count self.now.rows)
            → count_by (λ index. is_some (row_at self.now.rows index)) (range_with_len 0 count) ≡ result }
    {
        self.rows.len()
    }

    /// The row of this page.
    pub(crate) fn get(&self, index: u64) -> Option<AccessPin>
        ensures { result ≡ row_at self.now.rows index }
    {
        self.rows.get(&index).copied()
    }

    /// Whether there is room for so many more pages.
    pub(crate) fn has_room(&self, more: u64) -> bool
        ensures { result ≡ nat_le more self.now.room }
    {
        more <= (self.rows.capacity() - self.rows.len()) as u64
    }

    /// Makes room for so many more pages. Its only error is want of memory, which leaves the pages; some more room may
    /// have come before it.
    pub(crate) fn reserve(&mut self, more: u64) -> Result<(), NoMemory>
    where
        A: Copy,
        ensures rows { self.new.rows ≡ self.old.rows }
        ensures ok { OnOk result (more ≤ self.new.room) }
        ensures full { OnErr result (self.old.room < more) }
        ensures room { self.old.room ≤ self.new.room }
        ensures enough { more ≤ self.old.room → self.new.room ≡ self.old.room }
    {
        if self.has_room(more) {
            return Ok(());
        }
        if self.rows.reserve(more as usize).is_err() {
            return Err(NoMemory);
        }
        Ok(())
    }

    /// Puts the first pin on a page, at this frame. There is room. It takes no memory.
    pub(crate) fn add(&mut self, index: u64, frame: FrameNo)
    where
        A: Copy,
        requires room { 0 < self.old.room }
        requires absent { row_at self.old.rows index ≡ None }
        ensures rows { (other : ℕ) → row_at self.new.rows other
            ≡ (if index == other then Some (record { frame = frame; pins = 1 }) else row_at self.old.rows other) }
        ensures counted { (count : ℕ) → index < count → IsTrue (are_counted count self.old.rows)
            → IsTrue (are_counted count self.new.rows) }
        ensures room { self.old.room ≤ self.new.room + 1 }
    {
        let _ = self.rows.insert(index, AccessPin { frame, pins: 1 });
    }

    /// Puts one pin more on a page on which some stand: what its row was. None where none stands, and then it does
    /// nothing. It takes no memory.
    pub(crate) fn pin_again(&mut self, index: u64) -> Option<AccessPin>
        requires { pins_in (row_at self.old.rows index) + 1 < 2 ^ 64 }
        ensures before { result ≡ row_at self.old.rows index }
        ensures rows { IfSome result (λ pin. (other : ℕ) → row_at self.new.rows other
            ≡ (if index == other then Some (record { frame = pin.frame; pins = pin.pins + 1 })
            else row_at self.old.rows other)) }
        ensures counted { (count : ℕ) → IsTrue (are_counted count self.old.rows)
            → IsTrue (are_counted count self.new.rows) }
        ensures none { IfNone result (self.new ≡ self.old) }
        ensures room { self.new.room ≡ self.old.room }
    {
        let row = self.rows.get_mut(&index)?;
        let before = *row;
        row.pins += 1;
        Some(before)
    }

    /// Takes one pin off a page on which more than one stand: what its row was. None where no more stand, and then it
    /// does nothing. It takes no memory.
    pub(crate) fn unpin_one(&mut self, index: u64) -> Option<AccessPin>
        ensures before { IfSome result (λ pin. row_at self.old.rows index ≡ Some pin) }
        ensures more { IfSome result (λ pin. 1 < pin.pins) }
        ensures rows { IfSome result (λ pin. (other : ℕ) → row_at self.new.rows other
            ≡ (if index == other then Some (record { frame = pin.frame; pins = pin.pins - 1 })
            else row_at self.old.rows other)) }
        ensures counted { (count : ℕ) → IsTrue (are_counted count self.old.rows)
            → IsTrue (are_counted count self.new.rows) }
        ensures few { IfNone result (pins_in (row_at self.old.rows index) ≤ 1) }
        ensures none { IfNone result (self.new ≡ self.old) }
        ensures room { self.new.room ≡ self.old.room }
    {
        match self.rows.get_mut(&index) {
            Some(row) if row.pins > 1 => {
                let before = *row;
                row.pins -= 1;
                Some(before)
            }
            Some(_) => None,
            None => None,
        }
    }

    /// Whether there are none.
    pub(crate) fn is_empty(&self) -> bool
        ensures { IsTrue result → self.now.rows ≡ [] }
    {
        self.rows.is_empty()
    }

    /// Takes the last pin off a page. It takes no memory.
    pub(crate) fn remove(&mut self, index: u64)
        ensures rows { (other : ℕ) → row_at self.new.rows other
            ≡ (if index == other then None else row_at self.old.rows other) }
        ensures counted { (count : ℕ) → IsTrue (are_counted count self.old.rows)
            → IsTrue (are_counted count self.new.rows) }
        ensures room { self.old.room ≤ self.new.room }
    {
        let _ = self.rows.remove(&index);
    }
}
