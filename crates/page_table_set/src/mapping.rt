//! Spans of pages that are mapped and cleared in page tables.

ghost use Rattle.std.specs.Prelude.{ℕ, ◌≡◌, ◌≤◌, ◌<◌, ◌+◌, ◌-◌, ◌/◌};
ghost use Rattle.std.specs.Prelude.{◌++◌, Option, IfSome, length};
ghost use Rattle.std.specs.Prelude.{vec_capacity, vec_len};
ghost use Rattle.iofd_words.specs.Objects.{is_object};
ghost use Rattle.iofd_words.specs.Pages.{page_of};
ghost use Rattle.iofd_words.specs.Span.{size_of};
ghost use Rattle.iofd_words.specs.declared.rows.Object.{Object};
ghost use Rattle.frame_memory.specs.Pool.{free_count};
ghost use Rattle.page_table_spans.specs.Spans.{IsOfPages, held_once};
ghost use Rattle.page_table_words.specs.Rows.{MappedPage};
ghost use Rattle.page_table_set.specs.OverSpans.{AreBelow, CanMap, CanMapIn, HaveSpan, LeadsCleared, LeadsMapped};
ghost use Rattle.page_table_set.specs.OverSpans.{hwpts_over, is_over};
ghost use Rattle.page_table_set.specs.OverSpans.{frames_for, missing_found, tables_missing, tables_needed};
ghost use Rattle.page_table_set.specs.OverSpans.{with_missing};
ghost use Rattle.page_table_set.specs.PageTables.{AllStand, IfAllStand, KeepsOthers, Stand, hwpt_of};

use crate::page_tables::PageTables;
use crate::{lookups, over_spans};
use frame_memory::Pool;
use iofd_words::{FileNo, FrameNo, ObjId, PAGE_SIZE, Rights, Span};
use std::alloc::Allocator;

impl<A: Allocator> PageTables<A> {
    /// How many tables the page tables over the address space lack for the pages of the span, together, so how many
    /// frames it takes to map it. The span begins and ends at a page's border, and lies below the end of each. It costs
    /// the levels for each table through which the span goes, and takes no memory.
    pub fn needs<B: Allocator>(&self, pool: &Pool<B>, file: FileNo, ioas: ObjId, span: Span) -> u64
        requires stand { Stand pool.now self.now.tables }
        requires span { HaveSpan file ioas span self.now.tables }
        requires few { length (hwpts_over file ioas self.now.tables) ≤ 65535 }
        ensures { IfAllStand pool.now self.now.tables (λ rows leads.
            result ≡ tables_needed rows file ioas span self.now.tables) }
    {
        over_spans::needs(&self.tables, pool, file, ioas, span)
    }

    /// Maps the pages of the span to these frames, in turn, with these rights, in each page table over the address
    /// space, in place of what they were. Tables that they lack are made of the least free frames: by rising id, of
    /// each page table page after page, from the upper one down. Those frames are appended to `out`; so many are free,
    /// and there is room for them. Every other page stays, and every frame that is no table's. It costs the levels for
    /// each page, and takes no memory.
    pub fn map<B: Allocator, C: Allocator>(
        &mut self,
        pool: &mut Pool<B>,
        file: FileNo,
        ioas: ObjId,
        span: Span,
        frames: &[FrameNo],
        rights: Rights,
        out: &mut Vec<FrameNo, C>,
    )
        requires can { CanMap pool.old self.old.tables file ioas span (vec_capacity out.old - vec_len out.old) }
        requires span { HaveSpan file ioas span self.old.tables }
        requires pages { length frames.now ≡ size_of span / 4096 }
        requires some_right { 0 < rights.0 }
        requires no_other { rights.0 < 4 }
        ensures same { self.new ≡ self.old }
        ensures stand { IfAllStand pool.old self.old.tables (λ rows leads.
            (others : Object → ℕ → Option MappedPage) →
            LeadsMapped (is_over file ioas) (page_of span.first) frames.now rights leads others →
            AllStand pool.new (with_missing rows (tables_missing rows file ioas span self.old.tables) pool.old.holds)
            others self.old.tables) }
        ensures others { IfAllStand pool.old self.old.tables (λ rows leads.
            KeepsOthers (with_missing rows (tables_missing rows file ioas span self.old.tables) pool.old.holds) pool.old
            pool.new) }
        ensures holds { IfAllStand pool.old self.old.tables (λ rows leads.
            pool.new.holds ≡ held_once pool.old.holds
            (frames_for (tables_missing rows file ioas span self.old.tables) pool.old.holds)) }
        ensures free { IfAllStand pool.old self.old.tables (λ rows leads.
            free_count pool.new.holds + length (tables_missing rows file ioas span self.old.tables)
            ≡ free_count pool.old.holds) }
        ensures out { IfAllStand pool.old self.old.tables (λ rows leads.
            out.new.items ≡ out.old.items
            ++ frames_for (tables_missing rows file ioas span self.old.tables) pool.old.holds) }
        ensures capacity { vec_capacity out.new ≡ vec_capacity out.old }
    {
        over_spans::map(
            &mut self.tables,
            pool,
            file,
            ioas,
            span,
            frames,
            rights,
            out,
        );
    }

    /// Maps the pages of the span to these frames, in turn, with these rights, in the file's page table of this id, as
    /// `map` does in each over an address space. Where there is no such page table nothing changes.
    pub fn map_in<B: Allocator, C: Allocator>(
        &mut self,
        pool: &mut Pool<B>,
        file: FileNo,
        id: ObjId,
        span: Span,
        frames: &[FrameNo],
        rights: Rights,
        out: &mut Vec<FrameNo, C>,
    )
        requires can { CanMapIn pool.old self.old.tables file id span (vec_capacity out.old - vec_len out.old) }
        requires span { IfSome (hwpt_of self.old.tables file id) (λ h. IsOfPages h.table.width span) }
        requires pages { length frames.now ≡ size_of span / 4096 }
        requires some_right { 0 < rights.0 }
        requires no_other { rights.0 < 4 }
        ensures same { self.new ≡ self.old }
        ensures stand { IfAllStand pool.old self.old.tables (λ rows leads.
            (others : Object → ℕ → Option MappedPage) →
            LeadsMapped (is_object file id) (page_of span.first) frames.now rights leads others →
            AllStand pool.new
            (with_missing rows (missing_found rows span (hwpt_of self.old.tables file id)) pool.old.holds)
            others self.old.tables) }
        ensures others { IfAllStand pool.old self.old.tables (λ rows leads.
            KeepsOthers (with_missing rows (missing_found rows span (hwpt_of self.old.tables file id)) pool.old.holds)
            pool.old pool.new) }
        ensures holds { IfAllStand pool.old self.old.tables (λ rows leads.
            pool.new.holds ≡ held_once pool.old.holds
            (frames_for (missing_found rows span (hwpt_of self.old.tables file id)) pool.old.holds)) }
        ensures free { IfAllStand pool.old self.old.tables (λ rows leads.
            free_count pool.new.holds + length (missing_found rows span (hwpt_of self.old.tables file id))
            ≡ free_count pool.old.holds) }
        ensures out { IfAllStand pool.old self.old.tables (λ rows leads.
            out.new.items ≡ out.old.items
            ++ frames_for (missing_found rows span (hwpt_of self.old.tables file id)) pool.old.holds) }
        ensures capacity { vec_capacity out.new ≡ vec_capacity out.old }
    {
        let first_page = span.first() / PAGE_SIZE;
        if let Some(place) = lookups::place(&self.tables, file, id) {
            let hwpt = &mut self.tables[place];
            page_table_spans::map(&mut hwpt.table, pool, first_page, frames, rights, out);
        }
    }

    /// Unmaps `count` pages from `first_page` on, as far as they are mapped, in each page table over the address space.
    /// Their tables stay, and every other page. It costs the levels for each page, and takes no memory.
    pub fn clear<B: Allocator>(
        &mut self,
        pool: &mut Pool<B>,
        file: FileNo,
        ioas: ObjId,
        first_page: u64,
        count: u64,
    )
        requires stand { Stand pool.old self.old.tables }
        requires below { AreBelow file ioas (first_page + count) self.old.tables }
        ensures same { self.new ≡ self.old }
        ensures holds { pool.new.holds ≡ pool.old.holds }
        ensures stand { IfAllStand pool.old self.old.tables (λ rows leads.
            (others : Object → ℕ → Option MappedPage) →
            LeadsCleared file ioas first_page count leads others → AllStand pool.new rows others self.old.tables) }
        ensures others { IfAllStand pool.old self.old.tables (λ rows leads. KeepsOthers rows pool.old pool.new) }
    {
        over_spans::clear(&mut self.tables, pool, file, ioas, first_page, count);
    }
}
