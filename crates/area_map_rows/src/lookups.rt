//! Look-ups in areas by rising start, by binary search for the row and then in it.

ghost use Rattle.std.specs.Prelude.{◌≡◌, ◌+◌, ◌<◌, ◌≤◌, drop, filter, find, min, nat_lt, nat_le, length};
ghost use Rattle.std.specs.Prelude.{MatchBool, Some, if◌then◌else◌};
ghost use Rattle.std.specs.List.{prefix_len};
ghost use Rattle.std.specs.Option.{option_copied};
ghost use Rattle.area_map_rows.specs.Areas.{AreApart, area_of, ends_after, runs_on, areas_within, is_covered};
ghost use Rattle.area_map_rows.specs.Areas.{areas_meeting, end_from};
ghost use Rattle.area_map_rows.specs.Areas.{IsCovered};
ghost use Rattle.area_map_rows.specs.Areas.{HasGap};
ghost use Rattle.area_map_rows.specs.Rows.{in_rows, AreRows, end_of};
ghost use Rattle.iofd_words.specs.Areas.{areas_meet, is_cut, area_at};

use crate::iter::Iter;
use crate::row::Row;
use crate::search;
use iofd_words::{Area, Span};
use std::alloc::Allocator;

// For how many areas one is looked at, where a row of them is passed over.
const PART: usize = 8;

// How many areas there are up to the last of a part, which this place is, if it ends below the address; else none.
fn part_below(areas: &[Area], place: usize, address: u64) -> usize
    requires { AreApart areas.now }
    ensures most { result ≤ 8 }
    ensures below { 0 < result → place < prefix_len (λ area. nat_lt area.span.last address) areas.now }
{
    match areas.get(place) {
        Some(area) if area.span.last() < address => PART,
        _ => 0,
    }
}

// So many of a row's areas that each ends below the address: all that do but fewer than a part. Three areas are looked
// at, at once, as of rows (`search.rt`).
fn parts_below(areas: &[Area], address: u64) -> usize
    requires { AreApart areas.now }
    ensures below { result ≤ prefix_len (λ area. nat_lt area.span.last address) areas.now }
    ensures bound { result ≤ length areas.now }
{
    part_below(areas, PART - 1, address)
        + part_below(areas, 2 * PART - 1, address)
        + part_below(areas, 3 * PART - 1, address)
}

/// How many areas end below the address.
pub(crate) fn count_below(areas: &[Area], address: u64) -> usize
    requires { AreApart areas.now }
    ensures value { result ≡ prefix_len (λ area. nat_lt area.span.last address) areas.now }
    ensures bound { result ≤ length areas.now }
{
    let passed = parts_below(areas, address);
    passed + first_below(&areas[passed..], address)
}

// How many of the first areas end below the address.
fn first_below(areas: &[Area], address: u64) -> usize
    ensures value { result ≡ prefix_len (λ area. nat_lt area.span.last address) areas.now }
    ensures bound { result ≤ length areas.now }
{
    areas
        .iter()
        .take_while(|area| area.span.last() < address)
        .count()
}

/// How many areas end at the address or below it.
pub fn count_until(areas: &[Area], address: u64) -> usize
    ensures value { result ≡ prefix_len (λ area. nat_le area.span.last address) areas.now }
    ensures bound { result ≤ length areas.now }
{
    areas
        .iter()
        .take_while(|area| area.span.last() <= address)
        .count()
}

/// How many areas begin below the address.
pub(crate) fn count_before(areas: &[Area], address: u64) -> usize
    requires { AreApart areas.now }
    ensures value { result ≡ prefix_len (λ area. nat_lt area.span.first address) areas.now }
    ensures bound { result ≤ length areas.now }
{
    let passed = parts_below(areas, address);
    passed + first_before(&areas[passed..], address)
}

// How many of the first areas begin below the address.
fn first_before(areas: &[Area], address: u64) -> usize
    ensures value { result ≡ prefix_len (λ area. nat_lt area.span.first address) areas.now }
    ensures bound { result ≤ length areas.now }
{
    areas
        .iter()
        .take_while(|area| area.span.first() < address)
        .count()
}

/// How many rows end below the address.
pub fn rows_below<A: Allocator>(rows: &[Row<A>], address: u64) -> usize
    requires apart { AreApart (in_rows rows.now) }
    requires rows { AreRows rows.now }
    ensures value { result ≡ prefix_len (λ row. nat_lt (end_of row) address) rows.now }
    ensures bound { result ≤ length rows.now }
{
    let place = search::rows_passed(rows, address);
    place + first_rows_below(&rows[place..], address)
}

// How many of the first rows end below the address.
fn first_rows_below<A: Allocator>(rows: &[Row<A>], address: u64) -> usize
    ensures value { result ≡ prefix_len (λ row. nat_lt (end_of row) address) rows.now }
    ensures bound { result ≤ length rows.now }
{
    rows.iter().take_while(|row| row.end() < address).count()
}

/// How many rows there are up to the first that ends at the address or after it, or more: where that is the row at the
/// place, no search is needed.
pub fn rows_reaching<A: Allocator>(rows: &[Row<A>], place: usize, address: u64) -> usize
    requires apart { AreApart (in_rows rows.now) }
    requires rows { AreRows rows.now }
    ensures reach { min (prefix_len (λ row. nat_lt (end_of row) address) rows.now + 1) (length rows.now) ≤ result }
    ensures bound { result ≤ length rows.now }
{
    match rows.get(place) {
        Some(row) if address <= row.end() => place + 1,
        _ => rows_below(rows, address).saturating_add(1).min(rows.len()),
    }
}

/// The first area that ends at the address or after it.
pub fn first_reaching<A: Allocator>(rows: &[Row<A>], address: u64) -> Option<&Area>
    requires apart { AreApart (in_rows rows.now) }
    requires rows { AreRows rows.now }
    ensures { option_copied result ≡ find (λ area. nat_le address area.span.last) (in_rows rows.now) }
{
    first_behind(rows, rows_below(rows, address), address)
}

// The first area that ends at the address or after it, where so many rows end below it.
fn first_behind<A: Allocator>(rows: &[Row<A>], below: usize, address: u64) -> Option<&Area>
    requires apart { AreApart (in_rows rows.now) }
    requires rows { AreRows rows.now }
    requires below { below ≡ prefix_len (λ row. nat_lt (end_of row) address) rows.now }
    requires bound { below ≤ length rows.now }
    ensures { option_copied result ≡ find (λ area. nat_le address area.span.last) (in_rows rows.now) }
{
    let (row, _) = rows_from(rows, below).split_first()?;
    reaching_in(row.areas(), address)
}

// The first of a row's areas that ends at the address or after it.
fn reaching_in(areas: &[Area], address: u64) -> Option<&Area>
    requires { AreApart areas.now }
    ensures { option_copied result ≡ find (λ area. nat_le address area.span.last) areas.now }
{
    first_reaching_of(&areas[parts_below(areas, address)..], address)
}

// The same of any areas.
fn first_reaching_of(areas: &[Area], address: u64) -> Option<&Area>
    ensures { option_copied result ≡ find (λ area. nat_le address area.span.last) areas.now }
{
    areas.iter().find(|area| address <= area.span.last())
}

/// The area that holds the address.
pub fn at<A: Allocator>(rows: &[Row<A>], iova: u64) -> Option<&Area>
    requires apart { AreApart (in_rows rows.now) }
    requires rows { AreRows rows.now }
    ensures { option_copied result ≡ area_at iova (in_rows rows.now) }
{
    let area = first_reaching(rows, iova)?;
    if area.span.first() <= iova {
        Some(area)
    } else {
        None
    }
}

/// The area of exactly this span.
pub fn exact<A: Allocator>(rows: &[Row<A>], span: Span) -> Option<&Area>
    requires apart { AreApart (in_rows rows.now) }
    requires rows { AreRows rows.now }
    ensures { option_copied result ≡ area_of span (in_rows rows.now) }
{
    let area = first_reaching(rows, span.first())?;
    if area.span == span { Some(area) } else { None }
}

/// Whether some area meets the span.
pub fn meets<A: Allocator>(rows: &[Row<A>], span: Span) -> bool
    requires apart { AreApart (in_rows rows.now) }
    requires rows { AreRows rows.now }
    ensures { result ≡ areas_meet span (in_rows rows.now) }
{
    meets_behind(rows, rows_below(rows, span.first()), span)
}

/// Whether some area meets the span, where so many rows end below it.
pub fn meets_behind<A: Allocator>(rows: &[Row<A>], below: usize, span: Span) -> bool
    requires apart { AreApart (in_rows rows.now) }
    requires rows { AreRows rows.now }
    requires below { below ≡ prefix_len (λ row. nat_lt (end_of row) span.first) rows.now }
    requires bound { below ≤ length rows.now }
    ensures { result ≡ areas_meet span (in_rows rows.now) }
{
    match first_behind(rows, below, span.first()) {
        Some(area) => area.span.first() <= span.last(),
        None => false,
    }
}

// Whether the area that holds the address ends after it.
fn is_cut_after<A: Allocator>(rows: &[Row<A>], address: u64) -> bool
    requires apart { AreApart (in_rows rows.now) }
    requires rows { AreRows rows.now }
    ensures { result ≡ ends_after address (area_at address (in_rows rows.now)) }
{
    match at(rows, address) {
        Some(area) => address < area.span.last(),
        None => false,
    }
}

/// Whether some area meets the span and isn't wholly in it.
pub fn cuts<A: Allocator>(rows: &[Row<A>], span: Span) -> bool
    requires apart { AreApart (in_rows rows.now) }
    requires rows { AreRows rows.now }
    ensures { result ≡ is_cut span (in_rows rows.now) }
{
    match first_reaching(rows, span.first()) {
        Some(area) => is_cut_from(rows, area, span),
        None => false,
    }
}

// Whether some area meets the span and isn't wholly in it, where this is the first area that ends at the span's first
// address or after it.
fn is_cut_from<A: Allocator>(rows: &[Row<A>], area: &Area, span: Span) -> bool
    requires apart { AreApart (in_rows rows.now) }
    requires rows { AreRows rows.now }
    requires first { find (λ one. nat_le span.first one.span.last) (in_rows rows.now) ≡ Some area.now }
    ensures { result ≡ is_cut span (in_rows rows.now) }
{
    if span.last() <= area.span.last() {
        // The areas behind it begin above the span.
        return area.span.meets(span) && !area.span.lies_in(span);
    }
    area.span.first() < span.first() || is_cut_after(rows, span.last())
}

/// Whether some area meets the span, and whether one that does isn't wholly in it.
pub fn meets_and_cuts<A: Allocator>(rows: &[Row<A>], span: Span) -> (bool, bool)
    requires apart { AreApart (in_rows rows.now) }
    requires rows { AreRows rows.now }
    ensures meets { result.0 ≡ areas_meet span (in_rows rows.now) }
    ensures cuts { result.1 ≡ is_cut span (in_rows rows.now) }
{
    match first_reaching(rows, span.first()) {
        Some(area) => {
            let meets = area.span.first() <= span.last();
            (meets, is_cut_from(rows, area, span))
        }
        None => (false, false),
    }
}

/// Whether each address of the span lies in some area.
pub fn covers<A: Allocator>(rows: &[Row<A>], span: Span) -> bool
    requires apart { AreApart (in_rows rows.now) }
    requires rows { AreRows rows.now }
    ensures value { result ≡ is_covered span (in_rows rows.now) }
    ensures tells { MatchBool result (IsCovered span (in_rows rows.now)) (HasGap span (in_rows rows.now)) }
{
    runs_on(reaching(rows, span.first()), span.first(), span.last())
}

/// The rows from this place on.
pub fn rows_from<A: Allocator>(rows: &[Row<A>], place: usize) -> &[Row<A>]
    requires apart { AreApart (in_rows rows.now) }
    requires rows { AreRows rows.now }
    requires bound { place ≤ length rows.now }
    ensures value { result.now ≡ drop place rows.now }
    ensures apart { AreApart (in_rows result.now) }
    ensures rows { AreRows result.now }
{
    &rows[place..]
}

// The areas that end at the address or after it.
fn reaching<A: Allocator>(rows: &[Row<A>], address: u64) -> Iter<'_, A>
    requires apart { AreApart (in_rows rows.now) }
    requires rows { AreRows rows.now }
    ensures { result ≡ filter (λ area. nat_le address area.span.last) (in_rows rows.now) }
{
    let rest = rows_from(rows, rows_below(rows, address));
    let Some((row, others)) = rest.split_first() else {
        return Iter::new(&[], rest, None);
    };
    let areas = row.areas();
    Iter::new(&areas[count_below(areas, address)..], others, None)
}

/// Whether the areas, from the first on, hold the addresses from `first` to `last` without a gap.
pub(crate) fn runs_on<A: Allocator>(areas: Iter<'_, A>, first: u64, last: u64) -> bool
    ensures { result ≡ runs_on first last areas.entry }
{
    let mut next = first;
    for area in areas {
        if next < area.span.first() {
            return false;
        }
        if last <= area.span.last() {
            return true;
        }
        next = area.span.last() + 1;
    }
    false
}

/// The areas that lie in the span. They stand side by side.
pub fn within<A: Allocator>(rows: &[Row<A>], span: Span) -> Iter<'_, A>
    requires apart { AreApart (in_rows rows.now) }
    requires rows { AreRows rows.now }
    ensures { result ≡ areas_within span (in_rows rows.now) }
{
    let rest = rows_from(rows, rows_below(rows, span.first()));
    let Some((row, others)) = rest.split_first() else {
        return Iter::new(&[], rest, None);
    };
    let areas = row.areas();
    let front = &areas[count_before(areas, span.first())..];
    Iter::new(front, others, Some(span.last()))
}

/// The areas that meet the span. They stand side by side, and one search finds the first.
pub fn meeting<A: Allocator>(rows: &[Row<A>], span: Span) -> Iter<'_, A>
    requires apart { AreApart (in_rows rows.now) }
    requires rows { AreRows rows.now }
    ensures { result ≡ areas_meeting span (in_rows rows.now) }
{
    let rest = rows_from(rows, rows_below(rows, span.first()));
    let Some((row, others)) = rest.split_first() else {
        return Iter::new(&[], rest, None);
    };
    let areas = row.areas();
    let front = &areas[count_below(areas, span.first())..];
    let end = end_from(Iter::new(front, others, None), span.last());
    Iter::new(front, others, Some(end))
}

// Where the area ends that holds the address; the address itself where none does. It looks at no area behind.
fn end_from<A: Allocator>(areas: Iter<'_, A>, address: u64) -> u64
    ensures { result ≡ end_from address areas.entry }
{
    for area in areas {
        if address <= area.span.last() {
            return end_over(area, address);
        }
    }
    address
}

// Where the area, which ends at the address or after it, ends if it holds the address; else the address.
fn end_over(area: &Area, address: u64) -> u64
    ensures { result ≡ (if nat_le area.now.span.first address then area.now.span.last else address) }
{
    if area.span.first() <= address {
        area.span.last()
    } else {
        address
    }
}
