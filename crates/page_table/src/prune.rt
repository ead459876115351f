//! Tables through which no page goes that is mapped or kept.

ghost use Rattle.std.specs.Prelude.{ℕ, ◌≡◌, ◌≤◌, ◌<◌, ◌-◌, ◌*◌, ◌^◌, Some, true, not};
ghost use Rattle.std.specs.Prelude.{List, vec_len, vec_capacity};
ghost use Rattle.std.specs.List.{count_by};
ghost use Rattle.iofd_words.specs.declared.numbers.FrameNo.{FrameNo};
ghost use Rattle.page_table_words.specs.Cut.{CanCut, Cuts, goes_below};
ghost use Rattle.iofd_words.specs.Levels.{number_at};
ghost use Rattle.page_table_words.specs.Needed.{goes_through};
ghost use Rattle.page_table_words.specs.Pruned.{is_kept, is_used, is_wanted, left};
ghost use Rattle.page_table_words.specs.Rows.{MappedPage, TableRow, table_at};
ghost use Rattle.page_table_words.specs.Stands.{Stands};
ghost use Rattle.page_table_words.specs.Taken.{names};
ghost use Rattle.page_table_words.specs.Under.{HoldsTable};

use crate::entry::Entry;
use crate::levels;
use crate::visit::{collect, count};
use frame_memory::Pool;
use iofd_words::{FrameNo, PAGE_SIZE, Span};
use std::alloc::Allocator;

/// How many tables below this one, of this level and number, go: those through which no mapped page and no page of a
/// kept span goes. It visits the entries of each table below, at most once for each level above it.
pub(crate) fn count_idle<A: Allocator>(
    pool: &Pool<A>,
    level: u8,
    number: u64,
    table: FrameNo,
    kept: &[Span],
) -> u64
    requires some { 0 < level }
    requires few { level ≤ 5 }
    requires within { number < 2 ^ (9 * (5 - level)) }
    requires table { HoldsTable pool.now level table }
    ensures small { result ≤ 1000 ^ level }
    ensures idle { (levels : ℕ) (root : FrameNo) (rows : List TableRow) (pages : List MappedPage) (page : ℕ) →
        Stands pool.now levels root rows pages → table_at rows level page ≡ Some table →
        number ≡ number_at level page → result ≡ count_by (goes_below levels pages kept.now level page) rows }
{
    let mut total = 0;
    if level == 1 {
        return total;
    }
    for index in 0..Entry::COUNT {
        let entry = Entry::at(pool, table, index);
        if entry.is_present() {
            let next = entry.frame();
            let below = 512 * number + index as u64;
            if is_idle(pool, level - 1, below, next, kept) {
                total += count(pool, level - 1, next);
            } else {
                total += count_idle(pool, level - 1, below, next, kept);
            }
        }
    }
    total
}

/// Cuts the tables off that go, of those below this one, of this level and number: takes the entries away that lead to
/// them from tables that stay, and appends their frames, for which there is room. It visits entries as the count does,
/// and takes no memory.
pub(crate) fn cut_idle<A: Allocator, B: Allocator>(
    pool: &mut Pool<A>,
    level: u8,
    number: u64,
    table: FrameNo,
    kept: &[Span],
    out: &mut Vec<FrameNo, B>,
)
    requires some { 0 < level }
    requires few { level ≤ 5 }
    requires within { number < 2 ^ (9 * (5 - level)) }
    requires table { CanCut pool.old level number table kept.now (vec_capacity out.old - vec_len out.old) }
    ensures holds { pool.new.holds ≡ pool.old.holds }
    ensures len { vec_len out.old ≤ vec_len out.new }
    ensures capacity { vec_capacity out.new ≡ vec_capacity out.old }
    ensures cut { (levels : ℕ) (root : FrameNo) (rows : List TableRow) (pages : List MappedPage) (page : ℕ) →
        Stands pool.old levels root rows pages → table_at rows level page ≡ Some table →
        number ≡ number_at level page → names (left levels pages kept.now rows) table.0 ≡ true →
        Cuts pool.old pool.new levels root rows pages kept.now level page out.old.items out.new.items }
{
    if level == 1 {
        return;
    }
    for index in 0..Entry::COUNT {
        let entry = Entry::at(pool, table, index);
        if entry.is_present() {
            let next = entry.frame();
            let below = 512 * number + index as u64;
            // with a table go all below it, so that its own entries need no change
            if is_idle(pool, level - 1, below, next, kept) {
                collect(pool, level - 1, next, out);
                Entry(0).put(pool, table, index);
            } else {
                cut_idle(pool, level - 1, below, next, kept, out);
            }
        }
    }
}

// Whether no mapped page and no page of a kept span goes through this table, of this level and number.
fn is_idle<A: Allocator>(
    pool: &Pool<A>,
    level: u8,
    number: u64,
    table: FrameNo,
    kept: &[Span],
) -> bool
    requires some { 0 < level }
    requires few { level ≤ 5 }
    requires table { HoldsTable pool.now level table }
    ensures { (levels : ℕ) (root : FrameNo) (rows : List TableRow) (pages : List MappedPage) (page : ℕ) →
        Stands pool.now levels root rows pages → table_at rows level page ≡ Some table →
        number ≡ number_at level page → result ≡ not (is_wanted pages kept.now level number) }
{
    !is_kept(level, number, kept) && !is_used(pool, level, table)
}

// Whether a page of one of the spans goes through the level's table of this number.
fn is_kept(level: u8, number: u64, kept: &[Span]) -> bool
    requires { level ≤ 5 }
    ensures { result ≡ is_kept kept.now level number }
{
    for span in kept {
        if goes_through(level, number, *span) {
            return true;
        }
    }
    false
}

// Whether a page of the span goes through the level's table of this number.
fn goes_through(level: u8, number: u64, span: Span) -> bool
    requires { level ≤ 5 }
    ensures { result ≡ goes_through level number span }
{
    levels::number(level, span.first() / PAGE_SIZE) <= number
        && number <= levels::number(level, span.last() / PAGE_SIZE)
}

// Whether a mapped page goes through this table, of this level. It visits entries until it comes to one.
fn is_used<A: Allocator>(pool: &Pool<A>, level: u8, table: FrameNo) -> bool
    requires some { 0 < level }
    requires few { level ≤ 5 }
    requires table { HoldsTable pool.now level table }
    ensures { (levels : ℕ) (root : FrameNo) (rows : List TableRow) (pages : List MappedPage) (page : ℕ) →
        Stands pool.now levels root rows pages → table_at rows level page ≡ Some table →
        result ≡ is_used pages level (number_at level page) }
{
    for index in 0..Entry::COUNT {
        let entry = Entry::at(pool, table, index);
        if entry.is_present() && (level == 1 || is_used(pool, level - 1, entry.frame())) {
            return true;
        }
    }
    false
}
