//! Pages of areas that go, or that begin to leave, are cleared in the page tables.

ghost use Rattle.std.specs.Prelude.{◌≡◌, ◌∷◌, [], length};
ghost use Rattle.iofd_words.specs.TablePlaces as places;
ghost use Rattle.event_unmap.specs.Cleared.{CanClear, Clears};

use area_map::Iter;
use frame_memory::Pool;
use iofd_words::{Area, FileNo, ObjId, PAGE_SIZE, Phase};
use page_table_set::PageTables;
use std::alloc::Allocator;

/// The pages of those of these areas that are live are cleared in each page table over the address space. A leaving
/// area's pages already are. Every other page stays, and each frame in which no table is. It takes no memory, and looks
/// at no area where no page table is over the address space.
pub(crate) fn clear<A: Allocator>(
    areas: Iter<'_, A>,
    file: FileNo,
    ioas: ObjId,
    page_tables: &mut PageTables<A>,
    pool: &mut Pool<A>,
)
    requires { CanClear pool.old page_tables.old.tables file ioas areas }
    ensures same { page_tables.new ≡ page_tables.old }
    ensures cleared { Clears file ioas areas.entry page_tables.old.tables pool.old pool.new }
    ensures bytes { length pool.new.bytes ≡ length pool.new.holds }
{
    if page_tables.has_over(file, ioas) {
        clear_areas(areas, file, ioas, page_tables, pool);
    }
    pool.facts();
}

/// The pages of these areas are cleared.
fn clear_areas<A: Allocator>(
    areas: Iter<'_, A>,
    file: FileNo,
    ioas: ObjId,
    page_tables: &mut PageTables<A>,
    pool: &mut Pool<A>,
)
    requires { CanClear pool.old page_tables.old.tables file ioas areas }
    ensures same { page_tables.new ≡ page_tables.old }
    ensures cleared { Clears file ioas areas.entry page_tables.old.tables pool.old pool.new }
{
    for area in areas {
        clear_area(area, file, ioas, page_tables, pool);
    }
}

/// The pages of the area are cleared, if it is live.
fn clear_area<A: Allocator>(
    area: &Area,
    file: FileNo,
    ioas: ObjId,
    page_tables: &mut PageTables<A>,
    pool: &mut Pool<A>,
)
    requires { CanClear pool.old page_tables.old.tables file ioas (area.now ∷ []) }
    ensures same { page_tables.new ≡ page_tables.old }
    ensures cleared { Clears file ioas (area.now ∷ []) page_tables.old.tables pool.old pool.new }
{
    if !is_live(&area.phase) {
        return;
    }
    let first_page = area.span.first() / PAGE_SIZE;
    let last_page = area.span.last() / PAGE_SIZE;
    page_tables.clear(pool, file, ioas, first_page, last_page - first_page + 1);
}

/// Whether the phase is that of a live area.
fn is_live(phase: &Phase) -> bool
    ensures { result ≡ places.is_live phase.now }
{
    matches!(phase, Phase::Live)
}
