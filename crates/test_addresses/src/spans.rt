//! Spans by their first and last numbers.

use iofd_words::Span;
use std::alloc::Global;

pub(crate) const TOP: u64 = 0xffff_ffff_ffff_ffff;

/// The first and the last number of each span.
pub(crate) type Ends = &'static [(u64, u64)];

// The spans from each first to its last number.
pub(crate) fn spans(alloc: Global, ends: &[(u64, u64)]) -> Option<Vec<Span>> {
    let mut spans = Vec::new(alloc);
    for (first, last) in ends {
        spans.push(Span::new(*first, *last)?).ok()?;
    }
    Some(spans)
}

// Whether the spans have these first and last numbers.
pub(crate) fn are(spans: &[Span], ends: &[(u64, u64)]) -> bool {
    for (span, end) in spans.iter().zip(ends) {
        if span.first() != end.0 || span.last() != end.1 {
            return false;
        }
    }
    spans.len() == ends.len()
}
