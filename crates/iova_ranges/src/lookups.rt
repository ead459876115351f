//! Look-ups in merged spans, by binary search.

ghost use Rattle.std.specs.Prelude.{◌≡◌, ◌↔◌, IsTrue, ◌≤◌, find, nat_lt, nat_le, length};
ghost use Rattle.std.specs.List.{prefix_len};
ghost use Rattle.std.specs.Option.{option_copied};
ghost use Rattle.iofd_words.specs.Ranges.{AreMerged, in_spans};
ghost use Rattle.iova_ranges.specs.Ranges.{AllIn, lies_in_one};

use iofd_words::Span;

/// How many spans end below the number.
pub fn count_below(spans: &[Span], number: u64) -> usize
    requires { AreMerged spans.now }
    ensures value { result ≡ prefix_len (λ span. nat_lt span.last number) spans.now }
    ensures bound { result ≤ length spans.now }
{
    spans.partition_point(|span| span.last() < number)
}

/// The first span that ends at the number or above it.
pub fn first_reaching(spans: &[Span], number: u64) -> Option<&Span>
    requires { AreMerged spans.now }
    ensures { option_copied result ≡ find (λ span. nat_le number span.last) spans.now }
{
    spans.get(count_below(spans, number))
}

/// Whether some span holds the number.
pub fn holds(spans: &[Span], number: u64) -> bool
    requires { AreMerged spans.now }
    ensures { result ≡ in_spans spans.now number }
{
    match first_reaching(spans, number) {
        Some(span) => span.first() <= number,
        None => false,
    }
}

/// Whether the span lies in one of the spans.
pub fn covers(spans: &[Span], span: Span) -> bool
    requires { AreMerged spans.now }
    ensures value { result ≡ lies_in_one spans.now span }
    ensures covered { IsTrue result ↔ AllIn spans.now span }
{
    match first_reaching(spans, span.first()) {
        Some(one) => span.lies_in(*one),
        None => false,
    }
}
