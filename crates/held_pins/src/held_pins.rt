//! The pins of access objects.

ghost use Rattle.std.specs.Prelude.{◌≡◌, ◌<◌, ◌≤◌, [], nat_le, IsTrue, IsFalse, OnOk, OnErr};
ghost use Rattle.std.specs.List.{list_all};
ghost use Rattle.iofd_words.specs.Span.{is_whole_pages};
ghost use Rattle.iofd_words.specs.declared.numbers.FileNo.{FileNo};
ghost use Rattle.iofd_words.specs.declared.numbers.ObjId.{ObjId};
ghost use Rattle.held_pins.specs.HeldPins.{are_met, are_own_met, count_of, holds_some, is_covered_in, is_held};
ghost use Rattle.held_pins.specs.HeldPins.{is_whole, HasOneMore};

use crate::counts::Counts;
use crate::keys::{HolderKey, PageKey, PinKey, key_of};
use crate::page_counts::{access_reaches, reaches};
use crate::pin::HeldPin;
use crate::pin_counts::PinCounts;
use iofd_words::{AccessKind, FileNo, NoMemory, ObjId, Span};
use std::alloc::{Allocator, Global};
use std::marker::Model;

/// The pins that access objects hold, of whole pages of address spaces (iommufd.rst, "User Objects", on struct
/// iommufd_access). A contract sees the list of them; of what a call adds or takes away it says how it is counted
/// then, in whatever order the list is.
#[derive(Drop)]
pub struct HeldPins<A: Allocator = Global> {
    spans: Counts<PinKey, A>,
    counts: PinCounts<A>,
}

impl<A: Allocator> Model for HeldPins<A> {
    ghost use Rattle.std.specs.Prelude.{List};
    ghost use Rattle.held_pins.specs.Held.{pins_of, IsTied};
    ghost use Rattle.held_pins.specs.declared.pin.HeldPin.{HeldPin};

    ghost Value = { List HeldPin };

    ghost view = { λ held. pins_of held.spans };

    ghost invariant = { λ held. IsTied held.spans held.counts };
}

impl<A: Allocator> HeldPins<A> {
    /// No pins. It takes no memory.
    pub fn new(alloc: A) -> HeldPins<A>
    where
        A: Copy,
        ensures { result ≡ [] }
    {
        HeldPins {
            spans: Counts::new(alloc),
            counts: PinCounts::new(alloc),
        }
    }

    /// What holds of the pins at any time: each is of whole pages, and no access object holds more than 65,535. The
    /// call does nothing else.
    pub fn pins_told(&self)
        ensures whole { IsTrue (list_all is_whole self.now) }
        ensures few { (file : FileNo) (access : ObjId) → count_of self.now file access ≤ 65535 }
    {
        let _ = &self.spans;
    }

    /// Whether the access object holds a pin.
    pub fn holds_some(&self, file: FileNo, access: ObjId) -> bool
        ensures { result ≡ holds_some self.now file access }
    {
        self.counts.holders.count(HolderKey::new(file, access)) > 0
    }

    /// Whether the access object holds as many pins as it can, 65,535, of which equal ones count each.
    pub fn is_full(&self, file: FileNo, access: ObjId) -> bool
        ensures { result ≡ nat_le 65535 (count_of self.now file access) }
    {
        self.counts.holders.count(HolderKey::new(file, access)) == u16::MAX
    }

    /// Whether an equal pin is held: of the same access object, address space and span, and for writes too or for
    /// reads alone.
    pub fn holds(&self, pin: HeldPin) -> bool
        ensures { result ≡ is_held self.now pin }
    {
        self.spans.count(key_of(&pin)) > 0
    }

    /// Whether some pin of the access object in the address space covers the page at this address, in bytes, and is
    /// for such accesses: each pin is for reads.
    pub fn covers(
        &self,
        file: FileNo,
        access: ObjId,
        ioas: ObjId,
        address: u64,
        kind: AccessKind,
    ) -> bool
        ensures { result ≡ is_covered_in self.now file access ioas address kind }
    {
        let pages = &self.counts.pages;
        let written = pages.count(PageKey::new(file, ioas, address, access, true)) > 0;
        match kind {
            AccessKind::Read => {
                written || pages.count(PageKey::new(file, ioas, address, access, false)) > 0
            }
            AccessKind::Write => written,
        }
    }

    /// Whether some pin in the address space, of whichever access object, and the span, of addresses in bytes, have an
    /// address in common.
    pub fn meets(&self, file: FileNo, ioas: ObjId, span: Span) -> bool
        ensures { result ≡ are_met self.now file ioas span }
    {
        reaches(&self.counts.pages, file, ioas, span)
    }

    /// Whether some pin of the access object and the span, of addresses in bytes, have an address in common.
    pub fn access_meets(&self, file: FileNo, access: ObjId, span: Span) -> bool
        ensures { result ≡ are_own_met self.now file access span }
    {
        access_reaches(&self.counts.pages, file, access, span)
    }

    /// Adds the pin, of whole pages. Its only error is want of memory; it comes only where no equal pin is held, and
    /// changes nothing.
    ///
    /// It takes all its memory itself, for as many pages as the span has. So a caller that has more to take does so
    /// before, or takes the pin away again, which takes none.
    pub fn pin(&mut self, pin: HeldPin) -> Result<(), NoMemory>
    where
        A: Copy,
        requires whole { IsTrue (is_whole_pages pin.span) }
        requires few { count_of self.old pin.file pin.access < 65535 }
        ensures more { OnOk result (HasOneMore self.old self.new pin) }
        ensures full { OnErr result (IsFalse (is_held self.old pin)) }
        ensures err { OnErr result (self.new ≡ self.old) }
    {
        self.counts.add(&pin)?;
        if self.spans.add(key_of(&pin)).is_err() {
            self.counts.remove(&pin);
            return Err(NoMemory);
        }
        Ok(())
    }

    /// Takes one pin away that equals this one. One is held. It takes no memory.
    pub fn unpin(&mut self, pin: HeldPin)
    where
        A: Copy,
        requires { IsTrue (is_held self.old pin) }
        ensures less { HasOneMore self.new self.old pin }
    {
        let _ = self.spans.remove(key_of(&pin));
        self.counts.remove(&pin);
    }
}
