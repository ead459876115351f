//! Taking the numbers of a span out of merged spans.

ghost use Rattle.std.specs.Prelude.{◌≡◌, ℕ, ◌&&◌, ◌+◌, ◌-◌, ◌<◌, ◌≤◌, ◌++◌};
ghost use Rattle.std.specs.Prelude.{not, map, take, drop};
ghost use Rattle.std.specs.Prelude.{slice_index_or, IsTrue, OnOk, OnErr, vec_len, vec_capacity};
ghost use Rattle.iofd_words.specs.Span.{holds, lies_in};
ghost use Rattle.iofd_words.specs.Ranges.{AreMerged, in_spans};
ghost use Rattle.iova_ranges.specs.Ranges.{splits_one};
ghost use Rattle.iova_ranges.specs.Removing.{trimmed, halves, HasAround};

use crate::between::between;
use crate::lookups;
use iofd_words::{NoMemory, Span};
use std::alloc::Allocator;

/// Takes the numbers of the span away. It asks for memory only where a span is cut in two.
pub fn remove<A: Allocator>(spans: &mut Vec<Span, A>, cut: Span) -> Result<(), NoMemory>
    requires { AreMerged spans.old.items }
    ensures set { OnOk result
        ((n : ℕ) → in_spans spans.new.items n ≡ (in_spans spans.old.items n && not (holds cut n))) }
    ensures merged { AreMerged spans.new.items }
    ensures err { OnErr result (spans.new.items ≡ spans.old.items) }
    ensures full { OnErr result (vec_capacity spans.old ≤ vec_len spans.old) }
    ensures split { OnErr result (IsTrue (splits_one spans.old.items cut)) }
    ensures capacity { vec_capacity spans.old ≤ vec_capacity spans.new }
    ensures len { vec_len spans.new ≤ vec_len spans.old + 1 }
{
    let place = lookups::count_below(spans, cut.first());
    if has_around(spans, place, cut) {
        split(spans, place, cut)?;
    } else {
        spans.retain(|span| !span.lies_in(cut));
        trim_all(spans, cut);
    }
    Ok(())
}

// Whether a span stands at the place and goes on below the cut and above it.
fn has_around(spans: &[Span], place: usize, cut: Span) -> bool
    ensures { HasAround result spans.now place cut }
{
    match spans.get(place) {
        Some(span) => span.first() < cut.first() && cut.last() < span.last(),
        None => false,
    }
}

// Cuts the span at the place in two.
fn split<A: Allocator>(spans: &mut Vec<Span, A>, place: usize, cut: Span) -> Result<(), NoMemory>
    requires within { place < vec_len spans.old }
    requires below { (slice_index_or spans.old.items place cut).first < cut.first }
    requires above { cut.last < (slice_index_or spans.old.items place cut).last }
    ensures items { OnOk result (spans.new.items ≡ take place spans.old.items
        ++ (halves cut (slice_index_or spans.old.items place cut) ++ drop (place + 1) spans.old.items)) }
    ensures err { OnErr result (spans.new.items ≡ spans.old.items) }
    ensures full { OnErr result (vec_capacity spans.old ≤ vec_len spans.old) }
    ensures capacity { vec_capacity spans.old ≤ vec_capacity spans.new }
    ensures len { vec_len spans.new ≤ vec_len spans.old + 1 }
{
    let whole = spans[place];
    let (first, last) = (whole.first(), whole.last());
    let above = between(cut.last() + 1, last);
    spans.insert(place + 1, above)?;
    spans[place] = between(first, cut.first() - 1);
    Ok(())
}

// Trims each span.
fn trim_all<A: Allocator>(spans: &mut Vec<Span, A>, cut: Span)
    ensures items { spans.new.items ≡ map (trimmed cut) spans.old.items }
    ensures capacity { vec_capacity spans.new ≡ vec_capacity spans.old }
{
    for span in spans.iter_mut() {
        *span = trim(*span, cut);
    }
}

// What is left of a span that isn't cut in two. One that lies in the cut stays as it is.
fn trim(span: Span, cut: Span) -> Span
    ensures { result ≡ trimmed cut span }
{
    if span.lies_in(cut) {
        return span;
    }
    if span.first() < cut.first() {
        return between(span.first(), span.last().min(cut.first() - 1));
    }
    between(span.first().max(cut.last() + 1), span.last())
}
