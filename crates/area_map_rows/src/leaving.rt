//! The first and the last area that is leaving. Rows of which no area is leaving are passed over.

ghost use Rattle.std.specs.Prelude.{◌≡◌, Some, find};
ghost use Rattle.std.specs.Option.{option_copied};
ghost use Rattle.area_map_rows.specs.Areas.{AreApart};
ghost use Rattle.area_map_rows.specs.Rows.{has_leaving, in_rows, last_leaving, leaves, AreRows, LeaveIn};

use crate::changes::meeting;
use crate::marking::is_leaving;
use crate::row::Row;
use iofd_words::{Area, Span};
use std::alloc::Allocator;

/// The first area that is leaving. All that are lie in the hull; rows that don't meet it aren't looked at.
pub fn first_leaving<A: Allocator>(rows: &[Row<A>], hull: Span) -> Option<&Area>
    requires apart { AreApart (in_rows rows.now) }
    requires rows { AreRows rows.now }
    requires lie { LeaveIn (Some hull) (in_rows rows.now) }
    ensures { option_copied result ≡ find leaves (in_rows rows.now) }
{
    let (from, to) = meeting(rows, hull);
    first_in(&rows[from..to])
}

/// The last area that is leaving. All that are lie in the hull; rows that don't meet it aren't looked at.
pub fn last_leaving<A: Allocator>(rows: &[Row<A>], hull: Span) -> Option<&Area>
    requires apart { AreApart (in_rows rows.now) }
    requires rows { AreRows rows.now }
    requires lie { LeaveIn (Some hull) (in_rows rows.now) }
    ensures { option_copied result ≡ last_leaving (in_rows rows.now) }
{
    let (from, to) = meeting(rows, hull);
    last_in(&rows[from..to])
}

// The first area of the rows that is leaving.
fn first_in<A: Allocator>(rows: &[Row<A>]) -> Option<&Area>
    ensures { option_copied result ≡ find leaves (in_rows rows.now) }
{
    match leaving_row(rows) {
        Some(row) => first_of(row.areas()),
        None => None,
    }
}

// The first of the rows in which an area is leaving.
fn leaving_row<A: Allocator>(rows: &[Row<A>]) -> Option<&Row<A>>
    ensures { option_copied result ≡ find has_leaving rows.now }
{
    rows.iter().find(|row| row.has_leaving())
}

// The first of these areas that is leaving.
fn first_of(areas: &[Area]) -> Option<&Area>
    ensures { option_copied result ≡ find leaves areas.now }
{
    areas.iter().find(|area| is_leaving(&area.phase))
}

// The last area of the rows that is leaving.
fn last_in<A: Allocator>(rows: &[Row<A>]) -> Option<&Area>
    ensures { option_copied result ≡ last_leaving (in_rows rows.now) }
{
    let mut left = rows;
    while let Some((row, others)) = left.split_last() {
        if row.has_leaving() {
            return last_of(row.areas());
        }
        left = others;
    }
    None
}

// The last of these areas that is leaving.
fn last_of(areas: &[Area]) -> Option<&Area>
    ensures { option_copied result ≡ last_leaving areas.now }
{
    let mut last = None;
    for area in areas {
        if is_leaving(&area.phase) {
            last = Some(area);
        }
    }
    last
}
