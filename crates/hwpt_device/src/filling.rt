//! A page table that comes with what its address space maps: a page leads to the frame at which it is pinned.

ghost use Rattle.std.specs.Prelude.{◌≡◌, ◌<◌, ◌-◌, ◌∷◌, [], IfSome, vec_capacity, vec_len};
ghost use Rattle.frame_memory.specs.Pool.{least_free};
ghost use Rattle.page_table_set.specs.PageTables.{hwpt_at, with_hwpt};
ghost use Rattle.hwpt_device.specs.Filling.{Adds, CanAdd, CanFill, Fills};
ghost use Rattle.iofd_words.specs.TablePlaces as places;
ghost use Rattle.server_state.specs.Mapping.{own_areas};

use area_map::Iter;
use frame_memory::Pool;
use iofd_words::{Area, FileNo, FrameNo, ObjId, Object, Phase, Width};
use object_table::ObjectTable;
use page_table_set::PageTables;
use server_state::{Held, area_changes};
use std::alloc::Allocator;
use user_memory::UserMemory;

/// Adds a page table of this width, as this object of its file, which is none yet, and maps in it the live areas of the
/// address space, whose pages are pinned. Its tables are in the least free frames, its root in the first: they are
/// appended to `taken`, where there is room. Every other page stays, and each frame in which no table is. It takes no
/// memory.
pub(crate) fn add<A: Allocator>(
    table: &ObjectTable<Held<A>, A>,
    ioas: ObjId,
    object: Object,
    width: Width,
    memory: &UserMemory<A>,
    page_tables: &mut PageTables<A>,
    pool: &mut Pool<A>,
    taken: &mut Vec<FrameNo, A>,
)
    requires room { 0 < page_tables.old.room }
    requires can { CanAdd pool.old page_tables.old.tables memory.now object width
        (own_areas table.now object.file ioas) (vec_capacity taken.old - vec_len taken.old) }
    ensures tables { IfSome (least_free pool.old.holds) (λ frame.
        page_tables.new.tables ≡ with_hwpt (hwpt_at object width frame) page_tables.old.tables) }
    ensures added { Adds object width memory.now (own_areas table.now object.file ioas) page_tables.old.tables
        page_tables.new.tables pool.old pool.new taken.old.items taken.new.items }
{
    page_tables.insert(pool, object, width, taken);
    if let Some(areas) = area_changes::own_areas(table, object.file, ioas) {
        fill(
            areas.iter(),
            object.file,
            object.id,
            memory,
            page_tables,
            pool,
            taken,
        );
    }
}

/// Maps the live areas, in turn, in the file's page table of this id.
fn fill<A: Allocator>(
    areas: Iter<'_, A>,
    file: FileNo,
    id: ObjId,
    memory: &UserMemory<A>,
    page_tables: &mut PageTables<A>,
    pool: &mut Pool<A>,
    taken: &mut Vec<FrameNo, A>,
)
    requires { CanFill pool.old page_tables.old.tables memory.now file id areas
        (vec_capacity taken.old - vec_len taken.old) }
    ensures same { page_tables.new ≡ page_tables.old }
    ensures filled { Fills file id memory.now areas.entry page_tables.old.tables pool.old pool.new taken.old.items
        taken.new.items }
    ensures capacity { vec_capacity taken.new ≡ vec_capacity taken.old }
{
    for area in areas {
        fill_area(area, file, id, memory, page_tables, pool, taken);
    }
}

/// Maps the area, if it is live.
fn fill_area<A: Allocator>(
    area: &Area,
    file: FileNo,
    id: ObjId,
    memory: &UserMemory<A>,
    page_tables: &mut PageTables<A>,
    pool: &mut Pool<A>,
    taken: &mut Vec<FrameNo, A>,
)
    requires { CanFill pool.old page_tables.old.tables memory.now file id (area.now ∷ [])
        (vec_capacity taken.old - vec_len taken.old) }
    ensures same { page_tables.new ≡ page_tables.old }
    ensures filled { Fills file id memory.now (area.now ∷ []) page_tables.old.tables pool.old pool.new taken.old.items
        taken.new.items }
    ensures capacity { vec_capacity taken.new ≡ vec_capacity taken.old }
{
    if is_live(&area.phase) {
        area.span.facts();
        page_tables.map_in(
            pool,
            file,
            id,
            area.span,
            memory.frames(area.memory),
            area.rights,
            taken,
        );
    }
}

/// Whether the phase is that of a live area.
fn is_live(phase: &Phase) -> bool
    ensures { result ≡ places.is_live phase.now }
{
    matches!(phase, Phase::Live)
}
