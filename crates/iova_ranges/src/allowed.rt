//! The ranges to which the addresses of an address space are bounded.

ghost use Rattle.std.specs.Prelude.{◌≡◌, ◌==◌, ◌<◌, ◌↔◌, ℕ, [], length, not, IsTrue, IfOk};
ghost use Rattle.std.specs.Prelude.{OnOk, OnErr};
ghost use Rattle.iova_ranges.specs.Allowed.{IsAllowed, is_allowed, is_allowed_number};
ghost use Rattle.iofd_words.specs.Ranges.{AreMerged, in_spans};

use crate::RangeSet;
use crate::between::between;
use iofd_words::{NoMemory, Span};
use std::alloc::{Allocator, Global};
use std::marker::Model;

/// The ranges that IOMMU_IOAS_ALLOW_IOVAS allows in an address space (uapi header, `linux/iommufd.h`). With none, as
/// at first, each address is allowed. A contract sees them as spans by rising start, no two of which overlap or adjoin.
#[derive(Drop)]
pub struct Allowed<A: Allocator = Global> {
    ranges: RangeSet<A>,
}

impl<A: Allocator> Model for Allowed<A> {
    ghost use Rattle.std.specs.Prelude.{List};
    ghost use Rattle.iofd_words.specs.Bounds.{Bounds};
    ghost use Rattle.iofd_words.specs.Ranges.{AreMerged};

    ghost Value = { List Bounds };

    ghost view = { λ allowed. allowed.ranges.spans };

    ghost invariant = { λ allowed. AreMerged allowed.ranges.spans };
}

impl<A: Allocator> Allowed<A> {
    /// No ranges, so that each address is allowed. It takes no memory.
    pub fn new(alloc: A) -> Allowed<A>
        ensures { result ≡ [] }
    {
        Allowed {
            ranges: RangeSet::new(alloc),
        }
    }

    /// Whether there are ranges, so that what lies outside them isn't allowed.
    pub fn is_bounded(&self) -> bool
        ensures { result ≡ not (length self.now == 0) }
    {
        !self.ranges.is_empty()
    }

    /// The ranges. It takes no memory.
    pub fn spans(&self) -> &[Span]
        ensures spans { result.now ≡ self.now }
        ensures merged { AreMerged self.now }
    {
        self.ranges.spans()
    }

    /// Whether each number of the span is allowed. It may lie in two ranges that touch. It takes no memory.
    pub fn allows(&self, span: Span) -> bool
        ensures allowed { IsTrue result ↔ IsAllowed self.now span }
        ensures value { result ≡ is_allowed self.now span }
    {
        self.ranges.is_empty() || self.ranges.covers(span)
    }

    /// The set of all allowed addresses. It fails only where memory does.
    pub fn to_set<B: Allocator>(&self, alloc: B) -> Result<RangeSet<B>, NoMemory>
        ensures set { IfOk result (λ set. (n : ℕ) → in_spans set.spans n ≡ is_allowed_number self.now n) }
        ensures merged { IfOk result (λ set. AreMerged set.spans) }
    {
        if self.ranges.is_empty() {
            RangeSet::of(alloc, &[between(0, u64::MAX)])
        } else {
            RangeSet::of(alloc, self.ranges.spans())
        }
    }
}

impl<A: Allocator + Copy> Allowed<A> {
    /// Puts these ranges, in any order, in the place of all that there were; no range lifts the bound. It fails only
    /// where memory does, and then the former ranges stay.
    pub fn replace(&mut self, spans: &[Span]) -> Result<(), NoMemory>
        ensures set { OnOk result ((n : ℕ) → in_spans self.new n ≡ in_spans spans.now n) }
        ensures lifted { OnOk result ((length self.new == 0) ≡ (length spans.now == 0)) }
        ensures merged { AreMerged self.new }
        ensures err { OnErr result (self.new ≡ self.old) }
        ensures memory { OnErr result (0 < length spans.now) }
    {
        let ranges = RangeSet::of(*self.ranges.allocator(), spans)?;
        self.ranges = ranges;
        Ok(())
    }
}
