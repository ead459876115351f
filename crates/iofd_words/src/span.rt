//! Spans of numbers.

ghost use Rattle.std.specs.Prelude.{◌≡◌, ◌↔◌, ◌≤◌, ◌<◌, ◌-◌, ◌+◌};
ghost use Rattle.std.specs.Prelude.{◌^◌, IsSome, IfSome};
ghost use Rattle.iofd_words.specs.Span.{meets, lies_in, holds, is_whole_pages};

use crate::numbers::PAGE_SIZE;
use std::marker::Model;

/// The addresses at which the writes of an x86 device are interrupts (VT-d, "Interrupt Requests").
pub const INTERRUPT_RANGE: Span = Span {
    first: 0xfee0_0000,
    last: 0xfeef_ffff,
};

/// The numbers from `first` to `last`, both included. It is never empty, and may end at 2^64 - 1.
#[derive(Clone, Copy, PartialEq, Eq, Debug)]
pub struct Span {
    first: u64,
    last: u64,
}

impl Model for Span {
    ghost use Rattle.std.specs.Prelude.{◌≤◌};
    ghost use Rattle.iofd_words.specs.Bounds.{Bounds};

    ghost Value = { Bounds };

    ghost view = { λ span. record { first = span.first; last = span.last } };

    ghost invariant = { λ span. span.first ≤ span.last };

    ghost inverse = { λ bounds. record { first = bounds.first; last = bounds.last } };
}

impl Span {
    /// The span from `first` to `last`; None where `last` is below `first`.
    pub fn new(first: u64, last: u64) -> Option<Span>
        ensures ordered { IsSome result ↔ (first ≤ last) }
        ensures value { IfSome result (λ span. span ≡ record { first = first; last = last }) }
    {
        if first <= last {
            Some(Span { first, last })
        } else {
            None
        }
    }

    /// The span of `length` numbers from `first` on; None where it is empty or ends above 2^64 - 1.
    pub fn of_length(first: u64, length: u64) -> Option<Span>
        ensures fits { IsSome result ↔ ((0 < length) × (first + length ≤ 2 ^ 64)) }
        ensures value { IfSome result (λ span. span ≡ record { first = first; last = first + length - 1 }) }
    {
        let last = first.checked_add(length.checked_sub(1)?)?;
        Some(Span { first, last })
    }

    /// The first number.
    pub fn first(self) -> u64
        ensures value { result ≡ self.first }
        ensures ordered { result ≤ self.last }
    {
        self.first
    }

    /// The last number.
    pub fn last(self) -> u64
        ensures value { result ≡ self.last }
        ensures ordered { self.first ≤ result }
    {
        self.last
    }

    /// What holds of every span: it begins no later than it ends, and at numbers of 64 bits. The call does nothing
    /// else.
    pub fn facts(self)
        ensures ordered { self.first ≤ self.last }
        ensures end { self.last < 2 ^ 64 }
    {
        let _ = &self.last;
    }

    /// Whether the number is one of them.
    pub fn holds(self, number: u64) -> bool
        ensures { result ≡ holds self number }
    {
        self.first <= number && number <= self.last
    }

    /// Whether the two have a number in common.
    pub fn meets(self, other: Span) -> bool
        ensures { result ≡ meets self other }
    {
        self.first <= other.last && other.first <= self.last
    }

    /// Whether each of these numbers is one of the other's.
    pub fn lies_in(self, outer: Span) -> bool
        ensures { result ≡ lies_in self outer }
    {
        outer.first <= self.first && self.last <= outer.last
    }

    /// Whether it is made of whole pages.
    pub fn is_whole_pages(self) -> bool
        ensures { result ≡ is_whole_pages self }
    {
        self.first.is_multiple_of(PAGE_SIZE) && self.last % PAGE_SIZE == PAGE_SIZE - 1
    }
}
