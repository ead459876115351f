//! The pages that accesses pin. No access pins a page of most objects, and these keep a word for them.

ghost use Rattle.std.specs.Prelude.{ℕ, ◌≡◌, ◌==◌, ◌<◌, ◌≤◌, ◌+◌, ◌-◌, ◌^◌, [], None, Some, IsTrue, IfSome, IfNone};
ghost use Rattle.std.specs.Prelude.{IfOk, OnOk, OnErr};
ghost use Rattle.std.specs.Prelude.{is_some, nat_le, if◌then◌else◌};
ghost use Rattle.std.specs.List.{count_by, range_with_len};
ghost use Rattle.pinned_pages.specs.Access.{are_counted, frame_in, pins_in, row_at};

use crate::pin_rows::PinRows;
use iofd_words::{FrameNo, NoMemory};
use std::alloc::{Allocator, Global};
use std::marker::Model;

/// A page on which pins by accesses stand: the frame at which it is pinned, and how many they are.
#[derive(Clone, Copy)]
pub struct AccessPin {
    pub frame: FrameNo,
    pub pins: u64,
}

/// The pages of an object on which a pin by an access stands. A contract sees them by rising index, and for how many
/// more there is room.
#[derive(Drop)]
pub(crate) struct AccessPins<A: Allocator = Global> {
    alloc: A,
    // None where there is no room for any.
    rows: Option<Box<PinRows<A>, A>>,
}

impl<A: Allocator> Model for AccessPins<A> {
    ghost use Rattle.pinned_pages.specs.Access.{AccessMap, kept_map};

    ghost Value = { AccessMap };

    ghost view = { λ pins. kept_map (λ rows. rows.value) pins.rows };
}

impl<A: Allocator> AccessPins<A> {
    /// No pages. It takes no memory.
    pub(crate) fn new(alloc: A) -> AccessPins<A>
        ensures { result.rows ≡ [] }
    {
        AccessPins { alloc, rows: None }
    }

    /// How many pages there are, all of which are below some index.
    pub(crate) fn len(&self) -> usize
        ensures { (count : ℕ) → IsTrue (are_counted count self.now.rows)
            → count_by (λ index. is_some (row_at self.now.rows index)) (range_with_len 0 count) ≡ result }
    {
        match &self.rows {
            Some(rows) => rows.len(),
            None => 0,
        }
    }

    /// The row of this page.
    pub(crate) fn get(&self, index: u64) -> Option<AccessPin>
        ensures { result ≡ row_at self.now.rows index }
    {
        match &self.rows {
            Some(rows) => rows.get(index),
            None => None,
        }
    }

    /// The frame at which this page is pinned.
    pub(crate) fn frame(&self, index: u64) -> Option<FrameNo>
        ensures { result ≡ frame_in (row_at self.now.rows index) }
    {
        match self.get(index) {
            Some(pin) => Some(pin.frame),
            None => None,
        }
    }

    /// Whether there is room for so many more pages.
    pub(crate) fn has_room(&self, more: u64) -> bool
        ensures { result ≡ nat_le more self.now.room }
    {
        match &self.rows {
            Some(rows) => rows.has_room(more),
            None => more == 0,
        }
    }

    /// Makes room for so many more pages. Its only error is want of memory, which leaves the pages; some more room may
    /// have come before it.
    pub(crate) fn reserve(&mut self, more: u64) -> Result<(), NoMemory>
    where
        A: Copy,
        ensures rows { self.new.rows ≡ self.old.rows }
        ensures ok { OnOk result (more ≤ self.new.room) }
        ensures full { OnErr result (self.old.room < more) }
        ensures room { self.old.room ≤ self.new.room }
        ensures enough { more ≤ self.old.room → self.new.room ≡ self.old.room }
    {
        if self.has_room(more) {
            return Ok(());
        }
        match &mut self.rows {
            Some(rows) => rows.reserve(more),
            None => {
                self.rows = Some(boxed(self.alloc, more)?);
                Ok(())
            }
        }
    }

    /// Puts the first pin on a page, at this frame. There is room. It takes no memory.
    pub(crate) fn add(&mut self, index: u64, frame: FrameNo)
    where
        A: Copy,
        requires room { 0 < self.old.room }
        requires absent { row_at self.old.rows index ≡ None }
        ensures rows { (other : ℕ) → row_at self.new.rows other
            ≡ (if index == other then Some (record { frame = frame; pins = 1 }) else row_at self.old.rows other) }
        ensures counted { (count : ℕ) → index < count → IsTrue (are_counted count self.old.rows)
            → IsTrue (are_counted count self.new.rows) }
        ensures room { self.old.room ≤ self.new.room + 1 }
    {
        if let Some(rows) = &mut self.rows {
            rows.add(index, frame);
        }
    }

    /// Puts one pin more on a page on which some stand: what its row was. None where none stands, and then it does
    /// nothing. It takes no memory.
    pub(crate) fn pin_again(&mut self, index: u64) -> Option<AccessPin>
        requires { pins_in (row_at self.old.rows index) + 1 < 2 ^ 64 }
        ensures before { result ≡ row_at self.old.rows index }
        ensures rows { IfSome result (λ pin. (other : ℕ) → row_at self.new.rows other
            ≡ (if index == other then Some (record { frame = pin.frame; pins = pin.pins + 1 })
            else row_at self.old.rows other)) }
        ensures counted { (count : ℕ) → IsTrue (are_counted count self.old.rows)
            → IsTrue (are_counted count self.new.rows) }
        ensures none { IfNone result (self.new ≡ self.old) }
        ensures room { self.new.room ≡ self.old.room }
    {
        match &mut self.rows {
            Some(rows) => rows.pin_again(index),
            None => None,
        }
    }

    /// Takes one pin off a page on which more than one stand: what its row was. None where no more stand, and then it
    /// does nothing. It takes no memory.
    pub(crate) fn unpin_one(&mut self, index: u64) -> Option<AccessPin>
        ensures before { IfSome result (λ pin. row_at self.old.rows index ≡ Some pin) }
        ensures more { IfSome result (λ pin. 1 < pin.pins) }
        ensures rows { IfSome result (λ pin. (other : ℕ) → row_at self.new.rows other
            ≡ (if index == other then Some (record { frame = pin.frame; pins = pin.pins - 1 })
            else row_at self.old.rows other)) }
        ensures counted { (count : ℕ) → IsTrue (are_counted count self.old.rows)
            → IsTrue (are_counted count self.new.rows) }
        ensures few { IfNone result (pins_in (row_at self.old.rows index) ≤ 1) }
        ensures none { IfNone result (self.new ≡ self.old) }
        ensures room { self.new.room ≡ self.old.room }
    {
        match &mut self.rows {
            Some(rows) => rows.unpin_one(index),
            None => None,
        }
    }

    /// Gives the memory for rows back, where no page is pinned.
    pub(crate) fn free(&mut self)
        ensures { self.new.rows ≡ self.old.rows }
    {
        let is_empty = match &self.rows {
            Some(rows) => rows.is_empty(),
            None => true,
        };
        if is_empty {
            self.rows = None;
        }
    }

    /// Takes the last pin off a page. It takes no memory.
    pub(crate) fn remove(&mut self, index: u64)
        ensures rows { (other : ℕ) → row_at self.new.rows other
            ≡ (if index == other then None else row_at self.old.rows other) }
        ensures counted { (count : ℕ) → IsTrue (are_counted count self.old.rows)
            → IsTrue (are_counted count self.new.rows) }
        ensures room { self.old.room ≤ self.new.room }
    {
        if let Some(rows) = &mut self.rows {
            rows.remove(index);
        }
    }
}

/// A box of no rows, with room for so many.
fn boxed<A: Allocator + Copy>(alloc: A, room: u64) -> Result<Box<PinRows<A>, A>, NoMemory>
    ensures rows { IfOk result (λ made. made.value.rows ≡ []) }
    ensures room { IfOk result (λ made. room ≤ made.value.room) }
{
    let mut rows = PinRows::new(alloc);
    rows.reserve(room)?;
    Ok(Box::new(alloc, rows)?)
}
