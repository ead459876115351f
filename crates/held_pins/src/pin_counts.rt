//! How often the pages of pins are counted.

ghost use Rattle.std.specs.Prelude.{◌≡◌, [], OnOk, OnErr};
ghost use Rattle.held_pins.specs.Held.{AreAlike, AreMore, AreThere, HaveRoom, Lack};

use crate::counted_pages::CountedPages;
use crate::counts::Counts;
use crate::keys::{HolderKey, first_of};
use crate::page_counts::{add_pages, end_of, remove_pages};
use crate::pin::HeldPin;
use iofd_words::NoMemory;
use std::alloc::{Allocator, Global};

/// How often each page is pinned, and how many pins each access object holds.
#[derive(Drop)]
pub(crate) struct PinCounts<A: Allocator = Global> {
    /// By the address space and the access object that pinned it.
    pub(crate) pages: CountedPages<A>,
    pub(crate) holders: Counts<HolderKey, A>,
}

impl<A: Allocator + Copy> PinCounts<A> {
    /// Nothing is counted. It takes no memory.
    pub(crate) fn new(alloc: A) -> PinCounts<A>
        ensures pages { result.pages ≡ [] }
        ensures holders { result.holders ≡ [] }
    {
        PinCounts {
            pages: CountedPages::new(alloc),
            holders: Counts::new(alloc),
        }
    }

    /// Counts the pin: each of its pages, and its access object. Its only error is want of memory; it comes only
    /// where one of these isn't counted yet, and leaves each count as it was.
    pub(crate) fn add(&mut self, pin: &HeldPin) -> Result<(), NoMemory>
        requires { HaveRoom self.old pin.now }
        ensures more { OnOk result (AreMore self.old self.new pin.now) }
        ensures full { OnErr result (Lack self.old pin.now) }
        ensures err { OnErr result (AreAlike self.new self.old) }
    {
        let first = first_of(pin);
        let end = end_of(pin.span);
        add_pages(&mut self.pages, first, end)?;
        let holder = HolderKey::new(pin.file, pin.access);
        if self.holders.add(holder).is_err() {
            remove_pages(&mut self.pages, first, end);
            return Err(NoMemory);
        }
        Ok(())
    }

    /// Counts the pin no longer. It is counted. It takes no memory.
    pub(crate) fn remove(&mut self, pin: &HeldPin)
        requires { AreThere self.old pin.now }
        ensures { AreMore self.new self.old pin.now }
    {
        remove_pages(&mut self.pages, first_of(pin), end_of(pin.span));
        let _ = self.holders.remove(HolderKey::new(pin.file, pin.access));
    }
}
