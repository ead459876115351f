//! Tables that no area of an address space needs any more, in the page tables over it.

ghost use Rattle.std.specs.Prelude.{ℕ, ◌≡◌, ◌≤◌, ◌-◌, false, Option, [], length, vec_len, vec_capacity};
ghost use Rattle.std.specs.List.{count_by, list_any};
ghost use Rattle.iofd_words.specs.declared.rows.Object.{Object};
ghost use Rattle.iofd_words.specs.declared.rows.TableFrame.{TableFrame};
ghost use Rattle.area_map_rows.specs.Areas.{areas_outside};
ghost use Rattle.page_table_words.specs.Rows.{MappedPage};
ghost use Rattle.page_table_set.specs.Idle.{AllCanLeave, CanShed, MayShed, Shedding, Sheds, is_idle_in};
ghost use Rattle.page_table_set.specs.OverSpans.{hwpts_over};
ghost use Rattle.page_table_set.specs.PageTables.{IfAllStand, Stand};

use crate::hwpt::Hwpt;
use crate::lookups::is_over;
use crate::page_tables::PageTables;
use area_map::Areas;
use frame_memory::Pool;
use iofd_words::{FileNo, FrameNo, ObjId, Span};
use page_table::sort_from;
use std::alloc::Allocator;

impl<A: Allocator> PageTables<A> {
    /// How many tables below the roots of the page tables over the address space no area needs any more once those in
    /// the span have gone. These are its areas, and none is idle before. It costs the levels, and a look-up in the
    /// areas, for each table through which an area in the span goes, and takes no memory.
    pub fn count_idle<B: Allocator, C: Allocator>(
        &self,
        pool: &Pool<B>,
        file: FileNo,
        ioas: ObjId,
        areas: &Areas<C>,
        span: Span,
    ) -> u64
        requires stand { Stand pool.now self.now.tables }
        requires leave { AllCanLeave file ioas areas.now.areas span self.now.tables }
        requires few { length (hwpts_over file ioas self.now.tables) ≤ 65535 }
        ensures { IfAllStand pool.now self.now.tables (λ frames leads.
            list_any (is_idle_in file ioas areas.now.areas self.now.tables) frames ≡ false →
            result ≡ count_by (is_idle_in file ioas (areas_outside span areas.now.areas) self.now.tables) frames) }
    {
        count(&self.tables, pool, file, ioas, areas, span)
    }

    /// Takes those tables away, of whose pages none is mapped any more, and gives their frames back: the hold on each
    /// goes off, and they are appended to `out`, which is empty, by rising number; there is room. Every other table
    /// stays, and every mapped page. It costs what the count does, and takes no memory.
    pub fn remove_idle<B: Allocator, C: Allocator, D: Allocator>(
        &mut self,
        pool: &mut Pool<B>,
        file: FileNo,
        ioas: ObjId,
        areas: &Areas<C>,
        span: Span,
        out: &mut Vec<FrameNo, D>,
    )
        requires none { out.old.items ≡ [] }
        requires can { CanShed pool.old self.old.tables file ioas areas.now.areas span
            (vec_capacity out.old - vec_len out.old) }
        requires leave { AllCanLeave file ioas areas.now.areas span self.old.tables }
        ensures same { self.new ≡ self.old }
        ensures shed { IfAllStand pool.old self.old.tables (λ frames leads.
            MayShed file ioas areas.now.areas span frames leads self.old.tables →
            Sheds pool.old pool.new frames leads self.old.tables
            (is_idle_in file ioas (areas_outside span areas.now.areas) self.old.tables) out.new.items) }
    {
        remove(&mut self.tables, pool, file, ioas, areas, span, out);
        sort_from(out, 0);
    }
}

// How many of these page tables' tables are idle then.
fn count<A: Allocator, B: Allocator>(
    tables: &[Hwpt],
    pool: &Pool<A>,
    file: FileNo,
    ioas: ObjId,
    areas: &Areas<B>,
    span: Span,
) -> u64
    requires stand { Stand pool.now tables.now }
    requires leave { AllCanLeave file ioas areas.now.areas span tables.now }
    requires few { length (hwpts_over file ioas tables.now) ≤ 65535 }
    ensures { IfAllStand pool.now tables.now (λ frames leads.
        list_any (is_idle_in file ioas areas.now.areas tables.now) frames ≡ false →
        result ≡ count_by (is_idle_in file ioas (areas_outside span areas.now.areas) tables.now) frames) }
{
    let mut total = 0;
    for hwpt in tables {
        if is_over(hwpt, file, ioas) {
            total += page_table_spans::count_idle(&hwpt.table, pool, areas, span);
        }
    }
    total
}

// Takes the idle tables of these page tables away, one page table after the other.
fn remove<A: Allocator, B: Allocator, C: Allocator>(
    tables: &mut [Hwpt],
    pool: &mut Pool<A>,
    file: FileNo,
    ioas: ObjId,
    areas: &Areas<B>,
    span: Span,
    out: &mut Vec<FrameNo, C>,
)
    requires can { CanShed pool.old tables.old file ioas areas.now.areas span
        (vec_capacity out.old - vec_len out.old) }
    requires leave { AllCanLeave file ioas areas.now.areas span tables.old }
    ensures same { tables.new ≡ tables.old }
    ensures shed { IfAllStand pool.old tables.old (λ frames leads.
        MayShed file ioas areas.now.areas span frames leads tables.old →
        Shedding pool.old pool.new frames leads tables.old
        (is_idle_in file ioas (areas_outside span areas.now.areas) tables.old)
        out.old.items out.new.items (vec_len out.old) (vec_len out.new)) }
{
    for hwpt in tables {
        if is_over(hwpt, file, ioas) {
            page_table_spans::remove_idle(&mut hwpt.table, pool, areas, span, out);
        }
    }
}
