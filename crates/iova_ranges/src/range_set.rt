//! The set of ranges.

ghost use Rattle.std.specs.Prelude.{◌≡◌, ◌==◌, ◌↔◌, ◌||◌, ◌&&◌, not, ℕ, ◌+◌, ◌<◌};
ghost use Rattle.std.specs.Prelude.{◌≤◌, [], length, IsTrue, IfOk};
ghost use Rattle.std.specs.Prelude.{IfSome, IfNone, MatchOption, OnOk, OnErr};
ghost use Rattle.iofd_words.specs.Span.{holds};
ghost use Rattle.iofd_words.specs.Fits.{StartsRise, IsFit};
ghost use Rattle.iofd_words.specs.Ranges.{AreMerged, in_spans};
ghost use Rattle.iova_ranges.specs.Gaps.{IsGap};
ghost use Rattle.iova_ranges.specs.Ranges.{AllIn, lies_in_one, splits_one, touches_one};

use crate::{adding, fitting, gaps, lookups, removing};
use iofd_words::{Iova, NoMemory, Span};
use std::alloc::{Allocator, Global};
use std::marker::Model;

/// A set of addresses from 0 to 2^64 - 1. A contract sees the spans that make it up, by rising start, no two of
/// which overlap or adjoin, so that equal sets have equal spans (`laws`); and for how many more spans there is memory.
/// A number is in the set where some span holds it.
#[derive(Drop)]
pub struct RangeSet<A: Allocator = Global> {
    merged: Vec<Span, A>,
}

impl<A: Allocator> Model for RangeSet<A> {
    ghost use Rattle.std.specs.Prelude.{◌-◌};
    ghost use Rattle.std.specs.Vec.{vec_len, vec_capacity};
    ghost use Rattle.iova_ranges.specs.RangeTable.{RangeTable};
    ghost use Rattle.iofd_words.specs.Ranges.{AreMerged};

    ghost Value = { RangeTable };

    ghost view = { λ set. record { spans = set.merged.items; room = vec_capacity set.merged - vec_len set.merged } };

    ghost invariant = { λ set. AreMerged set.merged.items };
}

impl<A: Allocator> RangeSet<A> {
    /// The empty set. It takes no memory.
    pub fn new(alloc: A) -> RangeSet<A>
        ensures { result.spans ≡ [] }
    {
        RangeSet {
            merged: Vec::new(alloc),
        }
    }

    /// The set of the numbers of these spans, which may stand in any order and overlap. It fails only where memory
    /// does; no spans need none.
    pub fn of(alloc: A, spans: &[Span]) -> Result<RangeSet<A>, NoMemory>
        ensures set { IfOk result (λ set. (n : ℕ) → in_spans set.spans n ≡ in_spans spans.now n) }
        ensures merged { IfOk result (λ set. AreMerged set.spans) }
        ensures empty { IfOk result (λ set. (length set.spans == 0) ≡ (length spans.now == 0)) }
        ensures memory { OnErr result (0 < length spans.now) }
    {
        let mut set = RangeSet::new(alloc);
        for span in spans {
            set.add(*span)?;
        }
        Ok(set)
    }

    // The allocator that the set was made with.
    pub(crate) fn allocator(&self) -> &A {
        self.merged.allocator()
    }

    /// Whether no number is in the set.
    pub fn is_empty(&self) -> bool
        ensures { result ≡ (length self.now.spans == 0) }
    {
        self.merged.is_empty()
    }

    /// Whether the number is in the set. It takes no memory.
    pub fn holds(&self, number: u64) -> bool
        ensures { result ≡ in_spans self.now.spans number }
    {
        lookups::holds(&self.merged, number)
    }

    /// Whether each number of the span is in the set. It takes no memory.
    pub fn covers(&self, span: Span) -> bool
        ensures covered { IsTrue result ↔ AllIn self.now.spans span }
        ensures value { result ≡ lies_in_one self.now.spans span }
    {
        lookups::covers(&self.merged, span)
    }

    /// Numbers that aren't in the set, one of which lies in the span; None where each number of it is in the set. It
    /// takes no memory.
    pub fn gap_meeting(&self, span: Span) -> Option<Span>
        ensures { MatchOption result (AllIn self.now.spans span) (IsGap self.now.spans span) }
    {
        gaps::gap_meeting(&self.merged, span)
    }

    /// The spans that make up the set, by rising start. Between each and the next one at least one number is left out.
    pub fn spans(&self) -> &[Span]
        ensures spans { result.now ≡ self.now.spans }
        ensures merged { AreMerged self.now.spans }
    {
        self.merged.as_slice()
    }

    /// Adds the numbers of the span. Want of memory comes only where it touches no span of the set and there was no
    /// room for it, and leaves the set as it was.
    pub fn add(&mut self, span: Span) -> Result<(), NoMemory>
        ensures set { OnOk result ((n : ℕ) →
            in_spans self.new.spans n ≡ (in_spans self.old.spans n || holds span n)) }
        ensures merged { AreMerged self.new.spans }
        ensures some { OnOk result (0 < length self.new.spans) }
        ensures err { OnErr result (self.new.spans ≡ self.old.spans) }
        ensures full { OnErr result (self.old.room ≡ 0) }
        ensures apart { OnErr result (IsTrue (not (touches_one self.old.spans span))) }
        ensures count { length self.new.spans ≤ length self.old.spans + 1 }
        ensures room { self.old.room ≤ self.new.room + 1 }
    {
        adding::add(&mut self.merged, span)
    }

    /// Takes the numbers of the span away. Want of memory comes only where a span of the set is cut in two and there
    /// was no room for one more, and leaves the set as it was.
    pub fn remove(&mut self, span: Span) -> Result<(), NoMemory>
        ensures set { OnOk result
            ((n : ℕ) → in_spans self.new.spans n ≡ (in_spans self.old.spans n && not (holds span n))) }
        ensures merged { AreMerged self.new.spans }
        ensures err { OnErr result (self.new.spans ≡ self.old.spans) }
        ensures full { OnErr result (self.old.room ≡ 0) }
        ensures split { OnErr result (IsTrue (splits_one self.old.spans span)) }
        ensures count { length self.new.spans ≤ length self.old.spans + 1 }
        ensures room { self.old.room ≤ self.new.room + 1 }
    {
        removing::remove(&mut self.merged, span)
    }

    /// Takes memory for one more span, if there is no room. The set stays. After an Ok the next `add` or `remove`
    /// doesn't want for memory.
    pub fn reserve(&mut self) -> Result<(), NoMemory>
        ensures spans { self.new.spans ≡ self.old.spans }
        ensures ok { OnOk result (0 < self.new.room) }
        ensures full { OnErr result (self.old.room ≡ 0) }
        ensures room { self.old.room ≤ self.new.room }
    {
        match self.merged.reserve(1) {
            Ok(()) => Ok(()),
            Err(_) => Err(NoMemory),
        }
    }

    /// The least address, of those that are multiples of 4096, from which `length` addresses on lie in the set and in
    /// none of the areas. These stand by rising start (`starts_rise`), and may overlap. None where there is none, as
    /// for a length of 0. One pass over the set and the areas; it takes no memory.
    pub fn first_fit(&self, length: u64, areas: &[Span]) -> Option<Iova>
        requires { StartsRise areas.now }
        ensures fit { IfSome result (λ start. IsFit length self.now.spans areas.now start.0) }
        ensures least { IfSome result
            (λ start. (other : ℕ) → IsFit length self.now.spans areas.now other → start.0 ≤ other) }
        ensures none { IfNone result ((start : ℕ) → ¬ IsFit length self.now.spans areas.now start) }
    {
        fitting::first_fit(&self.merged, length, areas).map(Iova)
    }
}
