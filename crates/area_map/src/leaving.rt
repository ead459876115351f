//! Where the leaving areas lie, so that a flush looks at no others.

ghost use Rattle.std.specs.Prelude.{◌≡◌, Some, fold};
ghost use Rattle.area_map_rows.specs.Areas.{AreApart};
ghost use Rattle.area_map_rows.specs.Rows.{in_rows, AreRows, LeaveIn};
ghost use Rattle.area_map.specs.Kept.{joined, leaving_span, with_leaving, IsLeft};

use area_map_rows::leaving::{first_leaving, last_leaving};
use area_map_rows::{Iter, Row};
use iofd_words::{Area, Phase, Span};
use std::alloc::Allocator;

// The least span that holds both.
fn joined(hull: Option<Span>, span: Span) -> Option<Span>
    ensures { result ≡ joined hull span }
{
    match hull {
        Some(hull) => Span::new(hull.first().min(span.first()), hull.last().max(span.last())),
        None => Some(span),
    }
}

/// The span of leaving areas where there is one more area.
pub fn with_area(hull: Option<Span>, area: &Area) -> Option<Span>
    ensures { result ≡ with_leaving hull area.now }
{
    match area.phase {
        Phase::Live => hull,
        Phase::Leaving { .. } => joined(hull, area.span),
    }
}

/// The span of leaving areas where there are these areas more.
pub fn with_areas<A: Allocator>(hull: Option<Span>, areas: Iter<'_, A>) -> Option<Span>
    ensures { result ≡ fold with_leaving hull areas.entry }
{
    let mut hull = hull;
    for area in areas {
        hull = with_area(hull, area);
    }
    hull
}

/// The span of leaving areas where those are gone that lay in another span, and these rows are left. It looks for a
/// leaving area only where the first or the last one may be gone.
pub fn without<A: Allocator>(hull: Option<Span>, gone: Span, rows: &[Row<A>]) -> Option<Span>
    requires apart { AreApart (in_rows rows.now) }
    requires rows { AreRows rows.now }
    requires left { IsLeft hull gone (in_rows rows.now) }
    ensures { result ≡ leaving_span (in_rows rows.now) }
{
    let hull = hull?;
    if hull.lies_in(gone) {
        return None;
    }
    if hull.first() < gone.first() && gone.last() < hull.last() {
        return Some(hull);
    }
    ends_in(rows, hull)
}

// The span from the first leaving area's start to the last one's end, where all that are leaving lie in the hull.
fn ends_in<A: Allocator>(rows: &[Row<A>], hull: Span) -> Option<Span>
    requires apart { AreApart (in_rows rows.now) }
    requires rows { AreRows rows.now }
    requires lie { LeaveIn (Some hull) (in_rows rows.now) }
    ensures { result ≡ leaving_span (in_rows rows.now) }
{
    let first = first_leaving(rows, hull)?;
    let last = last_leaving(rows, hull)?;
    Span::new(first.span.first(), last.span.last())
}
