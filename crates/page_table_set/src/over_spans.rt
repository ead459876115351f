//! Spans of pages in each page table over an address space.

ghost use Rattle.std.specs.Prelude.{ℕ, ◌≡◌, ◌≤◌, ◌<◌, ◌+◌, ◌-◌, ◌/◌};
ghost use Rattle.std.specs.Prelude.{◌++◌, Option, length, vec_capacity};
ghost use Rattle.std.specs.Prelude.{vec_len};
ghost use Rattle.iofd_words.specs.Pages.{page_of};
ghost use Rattle.iofd_words.specs.Span.{size_of};
ghost use Rattle.iofd_words.specs.declared.rows.Object.{Object};
ghost use Rattle.frame_memory.specs.Pool.{free_count};
ghost use Rattle.page_table_spans.specs.Spans.{held_once};
ghost use Rattle.page_table_words.specs.Rows.{MappedPage};
ghost use Rattle.page_table_set.specs.OverSpans.{AreBelow, CanMap, HaveSpan, LeadsCleared, LeadsMapped, hwpts_over};
ghost use Rattle.page_table_set.specs.OverSpans.{is_over};
ghost use Rattle.page_table_set.specs.OverSpans.{frames_for, tables_missing, tables_needed, with_missing};
ghost use Rattle.page_table_set.specs.PageTables.{AllStand, IfAllStand, KeepsOthers, Stand};

use crate::hwpt::Hwpt;
use crate::lookups::is_over;
use frame_memory::Pool;
use iofd_words::{FileNo, FrameNo, ObjId, PAGE_SIZE, Rights, Span};
use std::alloc::Allocator;

/// Unmaps `count` pages from `first_page` on in each page table over the address space.
pub(crate) fn clear<A: Allocator>(
    tables: &mut [Hwpt],
    pool: &mut Pool<A>,
    file: FileNo,
    ioas: ObjId,
    first_page: u64,
    count: u64,
)
    requires stand { Stand pool.old tables.old }
    requires below { AreBelow file ioas (first_page + count) tables.old }
    ensures same { tables.new ≡ tables.old }
    ensures holds { pool.new.holds ≡ pool.old.holds }
    ensures stand { IfAllStand pool.old tables.old (λ frames leads. (others : Object → ℕ → Option MappedPage) →
        LeadsCleared file ioas first_page count leads others → AllStand pool.new frames others tables.old) }
    ensures others { IfAllStand pool.old tables.old (λ rows leads. KeepsOthers rows pool.old pool.new) }
{
    for hwpt in tables {
        if is_over(hwpt, file, ioas) {
            page_table_spans::clear(&mut hwpt.table, pool, first_page, count);
        }
    }
}

/// How many tables the page tables over the address space lack for the span, together. They are few enough for the sum.
pub(crate) fn needs<A: Allocator>(
    tables: &[Hwpt],
    pool: &Pool<A>,
    file: FileNo,
    ioas: ObjId,
    span: Span,
) -> u64
    requires stand { Stand pool.now tables.now }
    requires span { HaveSpan file ioas span tables.now }
    requires few { length (hwpts_over file ioas tables.now) ≤ 65535 }
    ensures { IfAllStand pool.now tables.now (λ frames leads.
        result ≡ tables_needed frames file ioas span tables.now) }
{
    let mut total = 0;
    for hwpt in tables {
        if is_over(hwpt, file, ioas) {
            total += page_table_spans::needs(&hwpt.table, pool, span);
        }
    }
    total
}

/// Maps the pages of the span to these frames, in turn, with these rights, in each page table over the address space.
pub(crate) fn map<A: Allocator, B: Allocator>(
    tables: &mut [Hwpt],
    pool: &mut Pool<A>,
    file: FileNo,
    ioas: ObjId,
    span: Span,
    frames: &[FrameNo],
    rights: Rights,
    out: &mut Vec<FrameNo, B>,
)
    requires can { CanMap pool.old tables.old file ioas span (vec_capacity out.old - vec_len out.old) }
    requires span { HaveSpan file ioas span tables.old }
    requires pages { length frames.now ≡ size_of span / 4096 }
    requires some_right { 0 < rights.0 }
    requires no_other { rights.0 < 4 }
    ensures same { tables.new ≡ tables.old }
    ensures stand { IfAllStand pool.old tables.old (λ rows leads. (others : Object → ℕ → Option MappedPage) →
        LeadsMapped (is_over file ioas) (page_of span.first) frames.now rights leads others →
        AllStand pool.new (with_missing rows (tables_missing rows file ioas span tables.old) pool.old.holds)
        others tables.old) }
    ensures others { IfAllStand pool.old tables.old (λ rows leads.
        KeepsOthers (with_missing rows (tables_missing rows file ioas span tables.old) pool.old.holds) pool.old
        pool.new) }
    ensures holds { IfAllStand pool.old tables.old (λ rows leads.
        pool.new.holds ≡ held_once pool.old.holds
        (frames_for (tables_missing rows file ioas span tables.old) pool.old.holds)) }
    ensures free { IfAllStand pool.old tables.old (λ rows leads.
        free_count pool.new.holds + length (tables_missing rows file ioas span tables.old)
        ≡ free_count pool.old.holds) }
    ensures out { IfAllStand pool.old tables.old (λ rows leads.
        out.new.items ≡ out.old.items ++ frames_for (tables_missing rows file ioas span tables.old) pool.old.holds) }
    ensures capacity { vec_capacity out.new ≡ vec_capacity out.old }
{
    let first_page = span.first() / PAGE_SIZE;
    for hwpt in tables {
        if is_over(hwpt, file, ioas) {
            page_table_spans::map(&mut hwpt.table, pool, first_page, frames, rights, out);
        }
    }
}
