//! Spans as C has them.

ghost use Rattle.std.specs.Prelude.{◌≡◌, map};
ghost use Rattle.iommufd_c.specs.Exports.{over, row_of};

use iofd_words::Span;

/// A span of addresses (`struct defnulk_span`).
#[repr(C)]
#[derive(Clone, Copy)]
pub struct SpanRow {
    /// The first address.
    pub first: u64,
    /// The last address, which is one of them.
    pub last: u64,
}

fn row_of(span: Span) -> SpanRow
    ensures { result ≡ row_of span }
{
    SpanRow {
        first: span.first(),
        last: span.last(),
    }
}

/// Puts the spans over the front of the rows, as many as these have place for.
pub(crate) fn put_spans(rows: &mut [SpanRow], spans: &[Span])
    ensures { rows.new ≡ over rows.old (map row_of spans.now) }
{
    let front = &spans[..rows.len().min(spans.len())];
    for (place, span) in front.iter().enumerate() {
        rows[place] = row_of(*span);
    }
}
