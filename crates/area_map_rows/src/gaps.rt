//! The addresses between areas.

ghost use Rattle.std.specs.Prelude.{◌≡◌, ◌+◌, ◌≤◌, ◌^◌};
ghost use Rattle.area_map_rows.specs.Areas.{AreApart};
ghost use Rattle.area_map_rows.specs.Rows.{in_rows, AreRows, first_free, gap_at, widest_behind, widest_of};

use crate::row::Row;
use iofd_words::Area;
use std::alloc::Allocator;

/// From which place on so many addresses are free, as far as the areas of these rows go. The place may be too high for
/// an address.
pub fn free_in_rows<A: Allocator>(rows: &[Row<A>], start: u128, count: u64) -> u128
    requires start { start ≤ 2 ^ 64 }
    requires apart { AreApart (in_rows rows.now) }
    requires rows { AreRows rows.now }
    ensures value { result ≡ first_free start count (in_rows rows.now) }
    ensures bound { result ≤ 2 ^ 64 }
{
    let mut at = start;
    for row in rows {
        if row.starts_from(at, count) {
            return at;
        }
        at = row.free_from(at, count);
    }
    at
}

/// From which place on so many addresses are free, as far as these areas of a row go. Both places may be too high for
/// an address.
pub fn free_in(areas: &[Area], from: u128, count: u64) -> u128
    requires { from ≤ 2 ^ 64 }
    ensures value { result ≡ first_free from count areas.now }
    ensures bound { result ≤ 2 ^ 64 }
{
    let mut at = from;
    for area in areas {
        if at + u128::from(count) <= u128::from(area.span.first()) {
            return at;
        }
        at = at.max(u128::from(area.span.last()) + 1);
    }
    at
}

/// How many free addresses the widest gap between two neighbours has; 0 where there are no two.
pub fn widest_of(areas: &[Area]) -> u64
    ensures { result ≡ widest_of areas.now }
{
    match areas.split_first() {
        Some((area, others)) => widest_behind(area.span.last(), others),
        None => 0,
    }
}

/// How many free addresses lie between the area before this place and the one at it; more than any gap has where there
/// is none on a side.
pub fn gap_at(areas: &[Area], place: usize) -> u64
    ensures { result ≡ gap_at place areas.now }
{
    if place == 0 || place >= areas.len() {
        return u64::MAX;
    }
    let end = areas[place - 1].span.last();
    areas[place]
        .span
        .first()
        .saturating_sub(end)
        .saturating_sub(1)
}

// The same as `widest_of`, of areas behind one that ends there.
fn widest_behind(last: u64, areas: &[Area]) -> u64
    ensures { result ≡ widest_behind last areas.now }
{
    let mut widest = 0;
    let mut end = last;
    for area in areas {
        let gap = area.span.first().saturating_sub(end).saturating_sub(1);
        widest = gap.max(widest);
        end = area.span.last();
    }
    widest
}
