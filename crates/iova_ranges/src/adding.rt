//! Adding a span to merged spans.

ghost use Rattle.std.specs.Prelude.{◌≡◌, ℕ, ◌||◌, not, ◌+◌, ◌<◌, ◌≤◌, ◌++◌, ◌∷◌};
ghost use Rattle.std.specs.Prelude.{drop, take, length, IsTrue, OnOk};
ghost use Rattle.std.specs.Prelude.{OnErr, vec_len, vec_capacity};
ghost use Rattle.std.specs.List.{prefix_len};
ghost use Rattle.iofd_words.specs.Span.{holds};
ghost use Rattle.iofd_words.specs.Ranges.{AreMerged, in_spans};
ghost use Rattle.iova_ranges.specs.Ranges.{touches_one};
ghost use Rattle.iova_ranges.specs.Adding.{is_clear_below, joined, joined_on};

use crate::between::between;
use iofd_words::{NoMemory, Span};
use std::alloc::Allocator;

/// Adds the numbers of the span. Spans that meet or adjoin become one.
pub fn add<A: Allocator>(spans: &mut Vec<Span, A>, span: Span) -> Result<(), NoMemory>
    requires { AreMerged spans.old.items }
    ensures set { OnOk result
        ((n : ℕ) → in_spans spans.new.items n ≡ (in_spans spans.old.items n || holds span n)) }
    ensures merged { AreMerged spans.new.items }
    ensures some { OnOk result (0 < length spans.new.items) }
    ensures err { OnErr result (spans.new.items ≡ spans.old.items) }
    ensures full { OnErr result (vec_capacity spans.old ≤ vec_len spans.old) }
    ensures apart { OnErr result (IsTrue (not (touches_one spans.old.items span))) }
    ensures capacity { vec_capacity spans.old ≤ vec_capacity spans.new }
    ensures len { vec_len spans.new ≤ vec_len spans.old + 1 }
{
    let from = count_clear_below(spans, span.first());
    let (grown, reached) = join_on(&spans[from..], span);
    if reached == 0 {
        spans.insert(from, grown)?;
    } else {
        replace(spans, from, from + reached, grown);
    }
    Ok(())
}

// How many spans end below the number and don't adjoin it.
fn count_clear_below(spans: &[Span], number: u64) -> usize
    requires { AreMerged spans.now }
    ensures value { result ≡ prefix_len (is_clear_below number) spans.now }
    ensures bound { result ≤ length spans.now }
{
    spans.partition_point(|span| is_clear_below(*span, number))
}

// Whether the span ends below the number and doesn't adjoin it.
fn is_clear_below(span: Span, number: u64) -> bool
    ensures { result ≡ is_clear_below number span }
{
    number.saturating_sub(span.last()) > 1
}

// The span, joined with those in front that it reaches, and how many these are.
fn join_on(spans: &[Span], span: Span) -> (Span, usize)
    ensures value { joined_on span spans.now ≡ result.0 ∷ drop result.1 spans.now }
    ensures bound { result.1 ≤ length spans.now }
{
    let mut grown = span;
    let mut reached = 0;
    for next in spans {
        if next.first().saturating_sub(grown.last()) > 1 {
            return (grown, reached);
        }
        grown = join(grown, *next);
        reached += 1;
    }
    (grown, reached)
}

// From the lesser beginning to the greater end.
fn join(a: Span, b: Span) -> Span
    ensures { result ≡ joined a b }
{
    between(a.first().min(b.first()), a.last().max(b.last()))
}

// Puts the span in the place of those from `from` to before `to`.
fn replace<A: Allocator>(spans: &mut Vec<Span, A>, from: usize, to: usize, span: Span)
    requires some { from + 1 ≤ to }
    requires within { to ≤ vec_len spans.old }
    ensures items { spans.new.items ≡ take from spans.old.items ++ span ∷ drop to spans.old.items }
    ensures capacity { vec_capacity spans.new ≡ vec_capacity spans.old }
    ensures len { vec_len spans.new ≤ vec_len spans.old }
{
    spans[from] = span;
    drop(spans.drain(from + 1..to));
}
