//! Numbers that are left out of merged spans.

ghost use Rattle.std.specs.Prelude.{◌≡◌, find, nat_le, Some, MatchOption};
ghost use Rattle.iofd_words.specs.Bounds.{Bounds};
ghost use Rattle.iofd_words.specs.Ranges.{AreMerged};
ghost use Rattle.iova_ranges.specs.Gaps.{IsGap};
ghost use Rattle.iova_ranges.specs.Ranges.{AllIn};

use crate::between::between;
use crate::lookups::first_reaching;
use iofd_words::Span;

/// Numbers that are in none of the spans, one of which lies in `span`; None where each number of it is in one.
pub fn gap_meeting(spans: &[Span], span: Span) -> Option<Span>
    requires { AreMerged spans.now }
    ensures { MatchOption result (AllIn spans.now span) (IsGap spans.now span) }
{
    match first_reaching(spans, span.first()) {
        Some(one) => gap_beside(spans, *one, span),
        None => Some(between(span.first(), u64::MAX)),
    }
}

// Before the first of the spans that ends at the span's beginning or above it, or behind.
fn gap_beside(spans: &[Span], one: Span, span: Span) -> Option<Span>
    requires merged { AreMerged spans.now }
    requires reaching { find (λ (other : Bounds). nat_le span.first other.last) spans.now ≡ Some one }
    ensures { MatchOption result (AllIn spans.now span) (IsGap spans.now span) }
{
    if span.first() < one.first() {
        return Some(between(span.first(), one.first() - 1));
    }
    if span.last() <= one.last() {
        return None;
    }
    Some(between(one.last() + 1, one.last() + 1))
}
