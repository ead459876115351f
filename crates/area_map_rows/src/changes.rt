//! What is done to the rows that a span meets. The others aren't looked at.

ghost use Rattle.std.specs.Prelude.{◌≡◌, ◌+◌, ◌≤◌, length, map, min, nat_lt};
ghost use Rattle.std.specs.List.{prefix_len};
ghost use Rattle.area_map_rows.specs.Areas.{AreApart, changed};
ghost use Rattle.area_map_rows.specs.Rows.{in_rows, AreRows, ChangesIn, end_of};

use crate::lookups;
use crate::marking::Change;
use crate::row::Row;
use iofd_words::Span;
use std::alloc::Allocator;

/// From which row on and up to which the rows may meet the span.
pub fn meeting<A: Allocator>(rows: &[Row<A>], span: Span) -> (usize, usize)
    requires apart { AreApart (in_rows rows.now) }
    requires rows { AreRows rows.now }
    ensures from { result.0 ≤ prefix_len (λ row. nat_lt (end_of row) span.first) rows.now }
    ensures to { min (prefix_len (λ row. nat_lt (end_of row) span.last) rows.now + 1) (length rows.now) ≤ result.1 }
    ensures order { result.0 ≤ result.1 }
    ensures bound { result.1 ≤ length rows.now }
{
    let from = lookups::rows_below(rows, span.first());
    let to = lookups::rows_reaching(rows, from, span.last());
    (from.min(to), to)
}

/// Makes the change of all areas, of which those in the span are changed alone.
pub fn change<A: Allocator>(rows: &mut [Row<A>], change: &Change, span: Span)
    requires apart { AreApart (in_rows rows.old) }
    requires rows { AreRows rows.old }
    requires lie { ChangesIn change.now span (in_rows rows.old) }
    ensures { rows.new ≡ map (map (changed change.now span)) rows.old }
{
    let (from, to) = meeting(rows, span);
    change_each(&mut rows[from..to], change, span);
}

fn change_each<A: Allocator>(rows: &mut [Row<A>], change: &Change, span: Span)
    ensures { rows.new ≡ map (map (changed change.now span)) rows.old }
{
    for row in rows.iter_mut() {
        row.change(change, span);
    }
}
