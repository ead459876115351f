//! Tables through which no page of an area goes once some areas of an address space have gone.

ghost use Rattle.std.specs.Prelude.{◌≡◌, ◌≤◌, ◌<◌, ◌+◌, ◌-◌, ◌*◌, ◌^◌, false, true, not};
ghost use Rattle.std.specs.Prelude.{◌&&◌, nat_le, nat_lt, vec_len, vec_capacity};
ghost use Rattle.std.specs.List.{count_by, list_any};
ghost use Rattle.iofd_words.specs.Areas.{areas_meet, is_cut};
ghost use Rattle.iofd_words.specs.Levels.{levels_of};
ghost use Rattle.area_map_rows.specs.Areas.{AreApart, areas_outside};
ghost use Rattle.page_table_words.specs.Mapped.{IsTable};
ghost use Rattle.page_table_words.specs.Needed.{is_absent};
ghost use Rattle.page_table_words.specs.Stands.{IfStands};
ghost use Rattle.page_table_spans.specs.Idle.{CanLeave, CanShed, MayShed, Sheds};
ghost use Rattle.page_table_spans.specs.Idle.{is_idle, is_idle_at, is_idle_between, span_at};

use area_map::Areas;
use frame_memory::Pool;
use iofd_words::{FrameNo, PAGE_SIZE, Span};
use page_table::Table;
use page_table::levels::{first_page, levels, number};
use std::alloc::Allocator;

/// How many tables below the root are idle once the areas in the span have gone: no page of an area that is left goes
/// through them. None is idle before. It costs the levels, and a look-up in the areas, for each table through which an
/// area in the span goes, and takes no memory.
pub fn count_idle<A: Allocator, B: Allocator>(
    table: &Table,
    pool: &Pool<A>,
    areas: &Areas<B>,
    span: Span,
) -> u64
    requires table { IsTable pool.now table.now }
    requires areas { CanLeave table.now.width areas.now.areas span }
    ensures small { result ≤ 5 * 2 ^ 45 }
    ensures idle { IfStands pool.now table.now (λ rows pages.
        list_any (is_idle (levels_of table.now.width) areas.now.areas) rows ≡ false →
        result ≡ count_by (is_idle (levels_of table.now.width) (areas_outside span areas.now.areas)) rows) }
{
    let mut total = 0;
    for level in 1..levels(table.width()) {
        total += count_at(table, pool, level, areas, span);
    }
    total
}

// How many of this level are.
fn count_at<A: Allocator, B: Allocator>(
    table: &Table,
    pool: &Pool<A>,
    level: u8,
    areas: &Areas<B>,
    span: Span,
) -> u64
    requires table { IsTable pool.now table.now }
    requires areas { CanLeave table.now.width areas.now.areas span }
    requires some { 0 < level }
    requires low { level < levels_of table.now.width }
    ensures small { result ≤ 2 ^ 45 }
    ensures idle { IfStands pool.now table.now (λ rows pages.
        list_any (is_idle (levels_of table.now.width) areas.now.areas) rows ≡ false →
        result ≡ count_by (is_idle_at (levels_of table.now.width) (areas_outside span areas.now.areas) level) rows) }
{
    let mut total = 0;
    let mut next = 0;
    for area in areas.within(span) {
        let first = number(level, area.span.first() / PAGE_SIZE).max(next);
        next = number(level, area.span.last() / PAGE_SIZE) + 1;
        total += count_between(table, pool, level, first, next, areas, span);
    }
    total
}

// How many of this level, numbered from the one on and before the other, are.
fn count_between<A: Allocator, B: Allocator>(
    table: &Table,
    pool: &Pool<A>,
    level: u8,
    first: u64,
    end: u64,
    areas: &Areas<B>,
    span: Span,
) -> u64
    requires table { IsTable pool.now table.now }
    requires uncut { is_cut span areas.now.areas ≡ false }
    requires apart { AreApart areas.now.areas }
    requires some { 0 < level }
    requires low { level < levels_of table.now.width }
    requires order { first ≤ end }
    requires end { end ≤ 2 ^ (9 * (levels_of table.now.width - level)) }
    ensures small { result ≤ end - first }
    ensures idle { IfStands pool.now table.now (λ rows pages.
        result ≡ count_by
        (is_idle_between (levels_of table.now.width) (areas_outside span areas.now.areas) level first end) rows) }
{
    let mut total = 0;
    for number in first..end {
        if is_idle(table, pool, level, number, areas, span) {
            total += 1;
        }
    }
    total
}

/// Takes the tables away that are idle once the areas in the span have gone, of whose pages none is mapped any more,
/// and gives their frames back: the hold on each goes off, and they are appended to `out`, in no order that is told,
/// where there is room. Every other table stays, and every mapped page. It costs what the count does, and takes no
/// memory.
pub fn remove_idle<A: Allocator, B: Allocator, C: Allocator>(
    table: &mut Table,
    pool: &mut Pool<A>,
    areas: &Areas<B>,
    span: Span,
    out: &mut Vec<FrameNo, C>,
)
    requires can { CanShed pool.old table.old areas.now.areas span 1
        (is_idle (levels_of table.old.width) (areas_outside span areas.now.areas))
        (vec_capacity out.old - vec_len out.old) }
    requires areas { CanLeave table.old.width areas.now.areas span }
    ensures same { table.new ≡ table.old }
    ensures shed { IfStands pool.old table.old (λ rows pages.
        MayShed (levels_of table.old.width) areas.now.areas span 1 rows pages →
        Sheds pool.old pool.new table.new rows pages
        (is_idle (levels_of table.old.width) (areas_outside span areas.now.areas))
        out.old.items out.new.items (vec_len out.old) (vec_len out.new)) }
    ensures capacity { vec_capacity out.new ≡ vec_capacity out.old }
{
    for level in 1..levels(table.width()) {
        remove_at(table, pool, level, areas, span, out);
    }
}

// Takes those of this level away, below which none is.
fn remove_at<A: Allocator, B: Allocator, C: Allocator>(
    table: &mut Table,
    pool: &mut Pool<A>,
    level: u8,
    areas: &Areas<B>,
    span: Span,
    out: &mut Vec<FrameNo, C>,
)
    requires can { CanShed pool.old table.old areas.now.areas span level
        (is_idle_at (levels_of table.old.width) (areas_outside span areas.now.areas) level)
        (vec_capacity out.old - vec_len out.old) }
    requires areas { CanLeave table.old.width areas.now.areas span }
    requires some { 0 < level }
    requires low { level < levels_of table.old.width }
    ensures same { table.new ≡ table.old }
    ensures shed { IfStands pool.old table.old (λ rows pages.
        MayShed (levels_of table.old.width) areas.now.areas span level rows pages →
        Sheds pool.old pool.new table.new rows pages
        (is_idle_at (levels_of table.old.width) (areas_outside span areas.now.areas) level)
        out.old.items out.new.items (vec_len out.old) (vec_len out.new)) }
    ensures capacity { vec_capacity out.new ≡ vec_capacity out.old }
{
    let mut next = 0;
    for area in areas.within(span) {
        let first = number(level, area.span.first() / PAGE_SIZE).max(next);
        next = number(level, area.span.last() / PAGE_SIZE) + 1;
        remove_between(table, pool, level, first, next, areas, span, out);
    }
}

// Takes those of this level away that are numbered from the one on and before the other.
fn remove_between<A: Allocator, B: Allocator, C: Allocator>(
    table: &mut Table,
    pool: &mut Pool<A>,
    level: u8,
    first: u64,
    end: u64,
    areas: &Areas<B>,
    span: Span,
    out: &mut Vec<FrameNo, C>,
)
    requires can { CanShed pool.old table.old areas.now.areas span level
        (is_idle_between (levels_of table.old.width) (areas_outside span areas.now.areas) level first end)
        (vec_capacity out.old - vec_len out.old) }
    requires uncut { is_cut span areas.now.areas ≡ false }
    requires apart { AreApart areas.now.areas }
    requires some { 0 < level }
    requires low { level < levels_of table.old.width }
    requires order { first ≤ end }
    requires end { end ≤ 2 ^ (9 * (levels_of table.old.width - level)) }
    ensures same { table.new ≡ table.old }
    ensures shed { IfStands pool.old table.old (λ rows pages.
        MayShed (levels_of table.old.width) areas.now.areas span level rows pages →
        Sheds pool.old pool.new table.new rows pages
        (is_idle_between (levels_of table.old.width) (areas_outside span areas.now.areas) level first end)
        out.old.items out.new.items (vec_len out.old) (vec_len out.new)) }
    ensures capacity { vec_capacity out.new ≡ vec_capacity out.old }
{
    for number in first..end {
        if is_idle(table, pool, level, number, areas, span) {
            table.remove_empty(pool, level, number, out);
        }
    }
}

// Whether this level's table of this number is there, and no area but those in the span meets it. The span cuts none.
fn is_idle<A: Allocator, B: Allocator>(
    table: &Table,
    pool: &Pool<A>,
    level: u8,
    number: u64,
    areas: &Areas<B>,
    span: Span,
) -> bool
    requires table { IsTable pool.now table.now }
    requires uncut { is_cut span areas.now.areas ≡ false }
    requires apart { AreApart areas.now.areas }
    requires some { 0 < level }
    requires low { level < levels_of table.now.width }
    requires number { number < 2 ^ (9 * (levels_of table.now.width - level)) }
    ensures { IfStands pool.now table.now (λ rows pages.
        result ≡ (not (areas_meet (span_at level number) (areas_outside span areas.now.areas))
        && not (is_absent rows level number))) }
{
    is_left_idle(level, number, areas, span) && table.has(pool, level, number)
}

// Whether no area but those in the span meets this level's table of this number. The span cuts none.
fn is_left_idle<A: Allocator>(level: u8, number: u64, areas: &Areas<A>, span: Span) -> bool
    requires uncut { is_cut span areas.now.areas ≡ false }
    requires apart { AreApart areas.now.areas }
    requires few { level ≤ 5 }
    requires fits { (number + 1) * 2 ^ (9 * level) ≤ 2 ^ 45 }
    ensures { result ≡ not (areas_meet (span_at level number) (areas_outside span areas.now.areas)) }
{
    let first = first_page(level, number) * PAGE_SIZE;
    let last = first_page(level, number + 1) * PAGE_SIZE - 1;
    !meets_before(first, last, areas, span.first())
        && !meets_behind(first, last, areas, span.last())
}

// Whether an area meets the span between these addresses as far as it lies before the end.
fn meets_before<A: Allocator>(first: u64, last: u64, areas: &Areas<A>, end: u64) -> bool
    requires { first ≤ last }
    ensures { result ≡ list_any (λ area. nat_le area.span.first last && nat_le first area.span.last
        && (nat_lt area.span.first end && nat_lt first end)) areas.now.areas }
{
    if first >= end {
        return false;
    }
    match Span::new(first, last.min(end - 1)) {
        Some(span) => areas.meets(span),
        None => false,
    }
}

// Whether an area meets it as far as it lies behind the start.
fn meets_behind<A: Allocator>(first: u64, last: u64, areas: &Areas<A>, start: u64) -> bool
    requires { first ≤ last }
    ensures { result ≡ list_any (λ area. nat_le area.span.first last && nat_le first area.span.last
        && (nat_lt start area.span.last && nat_lt start last)) areas.now.areas }
{
    if last <= start {
        return false;
    }
    match Span::new(first.max(start + 1), last) {
        Some(span) => areas.meets(span),
        None => false,
    }
}
