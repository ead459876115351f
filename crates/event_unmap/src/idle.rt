//! Tables that no area needs any more, which give their frames back.

ghost use Rattle.std.specs.Prelude.{◌≡◌, ◌<◌, ◌≤◌, ◌-◌, [], false, true, IsTrue, OnErr, OnOk};
ghost use Rattle.std.specs.Prelude.{length, vec_capacity, vec_len};
ghost use Rattle.std.specs.List.{count_by};
ghost use Rattle.area_map_rows.specs.Areas.{areas_outside};
ghost use Rattle.event_unmap.specs.Idle.{CanCount, CanGive, IfNeeded};
ghost use Rattle.page_table_set.specs.Idle.{MayShed, Sheds, is_idle_in};
ghost use Rattle.page_table_set.specs.PageTables.{IfAllStand};

use area_map::Areas;
use frame_memory::Pool;
use iofd_words::{FileNo, FrameNo, NoMemory, ObjId, Span};
use page_table_set::PageTables;
use std::alloc::Allocator;

/// Takes memory for the numbers of the frames that the tables are in which are idle once those of these areas of the
/// address space have gone that lie in the span, if a page table translates them and they needn't wait. None are listed
/// yet. Memory is wanting only where there is such a table.
pub(crate) fn reserve_given<A: Allocator>(
    page_tables: &PageTables<A>,
    pool: &Pool<A>,
    file: FileNo,
    ioas: ObjId,
    areas: &Areas<A>,
    span: Span,
    translated: bool,
    waits: bool,
    given: &mut Vec<FrameNo, A>,
) -> Result<(), NoMemory>
    requires { CanCount pool.now page_tables.now.tables file ioas areas.now.areas span }
    ensures same { given.new.items ≡ given.old.items }
    ensures room { OnOk result (translated ≡ true → waits ≡ false →
        IfNeeded pool.now page_tables.now.tables file ioas areas.now.areas
        (λ frames. count_by (is_idle_in file ioas (areas_outside span areas.now.areas) page_tables.now.tables) frames
        ≤ vec_capacity given.new - vec_len given.new)) }
    ensures memory { OnErr result (IsTrue translated) }
    ensures pending { OnErr result (waits ≡ false) }
    ensures lacking { OnErr result (IfNeeded pool.now page_tables.now.tables file ioas areas.now.areas (λ frames.
        0 < count_by (is_idle_in file ioas (areas_outside span areas.now.areas) page_tables.now.tables) frames)) }
{
    if !translated {
        return Ok(());
    }
    if waits {
        return Ok(());
    }
    let count = page_tables.count_idle(pool, file, ioas, areas, span);
    given.reserve(count as usize)?;
    Ok(())
}

/// Takes the tables away that are idle once the areas of the address space in the span have gone, and lists their
/// frames by rising number. There is room. It takes no memory.
pub(crate) fn give_back<A: Allocator>(
    areas: &Areas<A>,
    file: FileNo,
    ioas: ObjId,
    span: Span,
    page_tables: &mut PageTables<A>,
    pool: &mut Pool<A>,
    given: &mut Vec<FrameNo, A>,
)
    requires none { given.old.items ≡ [] }
    requires can { CanGive pool.old page_tables.old.tables file ioas areas.now.areas span
        (vec_capacity given.old - vec_len given.old) }
    ensures same { page_tables.new ≡ page_tables.old }
    ensures shed { IfAllStand pool.old page_tables.old.tables (λ frames leads.
        MayShed file ioas areas.now.areas span frames leads page_tables.old.tables →
        Sheds pool.old pool.new frames leads page_tables.old.tables
        (is_idle_in file ioas (areas_outside span areas.now.areas) page_tables.old.tables) given.new.items) }
    ensures bytes { length pool.new.bytes ≡ length pool.new.holds }
{
    page_tables.remove_idle(pool, file, ioas, areas, span, given);
    pool.facts();
}
