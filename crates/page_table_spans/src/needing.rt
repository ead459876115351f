//! How many tables spans and areas need.

ghost use Rattle.std.specs.Prelude.{◌≡◌, ◌≤◌, ◌<◌, ◌+◌, ◌*◌, ◌^◌, IsTrue, false, true};
ghost use Rattle.std.specs.Prelude.{length, map};
ghost use Rattle.std.specs.List.{All};
ghost use Rattle.iofd_words.specs.Levels.{levels_of, number_at};
ghost use Rattle.iofd_words.specs.Pages.{page_of};
ghost use Rattle.iofd_words.specs.Span.{is_whole_pages};
ghost use Rattle.iofd_words.specs.TablePlaces.{is_live, lacking, live_pages, pages_in, places_of};
ghost use Rattle.page_table_words.specs.Mapped.{IsTable};
ghost use Rattle.page_table_words.specs.Stands.{IfStands};
ghost use Rattle.area_map_rows.specs.Areas.{AreApart};
ghost use Rattle.page_table_spans.specs.Spans.{IsOfPages, lacked};
ghost use Rattle.page_table_spans.specs.Levels.{place_at};

use area_map::{Areas, Iter};
use frame_memory::Pool;
use iofd_words::{PAGE_SIZE, Phase, Span, Width};
use page_table::Table;
use page_table::levels::{levels, number};
use std::alloc::Allocator;

/// How many tables the pages of the span lack, so how many frames it takes to map them all. The span begins and ends at
/// a page's border, and lies below the end of the width. It costs the levels for each table through which the span
/// goes, and takes no memory.
pub fn needs<A: Allocator>(table: &Table, pool: &Pool<A>, span: Span) -> u64
    requires table { IsTable pool.now table.now }
    requires span { IsOfPages table.now.width span }
    ensures { IfStands pool.now table.now (λ rows pages.
        result ≡ length (lacked rows (levels_of table.now.width) (pages_in span))) }
{
    // no span is empty
    prove!(span.first() <= span.last());
    table.needs(pool, &[span])
}

/// How many tables a page table of this width has that maps the live areas, its root among them, so how many frames it
/// takes to make it. The areas begin and end at pages' borders, and lie below the end of the width. It goes through
/// them once for each level at which they don't all lie in one table, and takes no memory.
pub fn tables_for<A: Allocator>(width: Width, areas: &Areas<A>) -> u64
    requires { All (λ area. IsOfPages width area.span) areas.now.areas }
    ensures { result ≡ length (lacking (λ place. false) (places_of width (live_pages areas.now.areas))) }
{
    let mut total = 1;
    for level in 1..levels(width) {
        total += tables_at(width, level, areas);
    }
    total
}

// How many tables of this level the live areas go through.
fn tables_at<A: Allocator>(width: Width, level: u8, areas: &Areas<A>) -> u64
    requires pages { All (λ area. IsOfPages width area.span) areas.now.areas }
    requires few { level ≤ 5 }
    ensures small { result ≤ 2 ^ 52 }
    ensures value { result
        ≡ length (lacking (λ place. false) (map (place_at level) (live_pages areas.now.areas))) }
{
    if lie_in_one_table(width, level, areas) {
        return 1;
    }
    count_at(level, areas.iter())
}

// Whether the first area is live, and none reaches behind its table of this level.
fn lie_in_one_table<A: Allocator>(width: Width, level: u8, areas: &Areas<A>) -> bool
    requires pages { All (λ area. IsOfPages width area.span) areas.now.areas }
    requires few { level ≤ 5 }
    ensures { IsTrue result
        → length (lacking (λ place. false) (map (place_at level) (live_pages areas.now.areas))) ≡ 1 }
{
    let _ = width;
    match areas.first_reaching(0) {
        Some(first) if is_live(&first.phase) => {
            let end = end_of_table(level, first.span.first());
            areas.first_reaching(end).is_none()
        }
        _ => false,
    }
}

// The first address behind the table of this level through which the address goes.
fn end_of_table(level: u8, address: u64) -> u64
    requires few { level ≤ 5 }
    requires low { address < 2 ^ 57 }
    ensures { result ≡ (number_at level (page_of address) + 1) * 2 ^ (9 * level) * 4096 }
{
    (number(level, address / PAGE_SIZE) + 1) << (9 * level + 12)
}

// How many tables of this level the areas go through, counted area by area: two neighbours share at most the one at
// their border.
fn count_at<A: Allocator>(level: u8, areas: Iter<'_, A>) -> u64
    requires pages { All (λ area. is_whole_pages area.span ≡ true) areas }
    requires apart { AreApart areas }
    requires few { level ≤ 5 }
    ensures small { result ≤ 2 ^ 52 }
    ensures value { result ≡ length (lacking (λ place. false) (map (place_at level) (live_pages areas.entry))) }
{
    let mut total = 0;
    let mut next = 0;
    for area in areas {
        if is_live(&area.phase) {
            let first = number(level, area.span.first() / PAGE_SIZE).max(next);
            next = number(level, area.span.last() / PAGE_SIZE) + 1;
            total += next - first;
        }
    }
    total
}

// Whether the phase is that of a live area.
fn is_live(phase: &Phase) -> bool
    ensures { result ≡ is_live phase.now }
{
    matches!(phase, Phase::Live)
}
