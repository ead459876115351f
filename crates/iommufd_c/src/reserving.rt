//! The reserved spans of a configuration's devices, from an array of a C program.

ghost use Rattle.std.specs.Prelude.{◌≡◌, ◌≤◌, All, IfOk};
ghost use Rattle.iommufd_c.specs.Configured.{reserved_for, span_of};

use iofd_words::{NoMemory, Span, SpanList};
use std::alloc::Global;

/// A span that a device of a configuration reserves (`struct defnulk_reserved`).
#[repr(C)]
#[derive(Clone, Copy)]
pub struct ReservedRow {
    /// The first address.
    pub first: u64,
    /// The last address, which is one of them.
    pub last: u64,
    /// The number of the device, counted from 1.
    pub device: u16,
}

/// The span of a row.
pub(crate) fn span_of(row: &ReservedRow) -> Span
    requires { row.now.first ≤ row.now.last }
    ensures { result ≡ span_of row.now }
{
    let Some(span) = Span::new(row.first, row.last) else {
        unreachable!()
    };
    span
}

/// The spans that the rows reserve for the device of this number.
pub(crate) fn reserved_for(
    alloc: Global,
    rows: &[ReservedRow],
    device: usize,
) -> Result<SpanList, NoMemory>
    requires { All (λ row. row.first ≤ row.last) rows.now }
    ensures { IfOk result (λ spans. spans ≡ reserved_for rows.now device) }
{
    let mut spans = Vec::new(alloc);
    for row in rows {
        if usize::from(row.device) == device {
            spans.push(span_of(row))?;
        }
    }
    Ok(SpanList::new(spans))
}
