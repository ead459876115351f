//! Areas that go, or that no page table translates any more, let go of their memory objects; and a page table goes.

ghost use Rattle.std.specs.Prelude.{◌≡◌, ◌-◌, None, if◌then◌else◌, vec_capacity, vec_len};
ghost use Rattle.page_table_set.specs.PageTables.{IfAllStand, hwpt_of};
ghost use Rattle.page_table_set.specs.Removed.{CanRemove, rows_found};
ghost use Rattle.object_table.specs.Table.{removed};
ghost use Rattle.server_state.specs.Held.{destroy_refusal};
ghost use Rattle.server_state.specs.Mapping.{own_areas, untranslated_pins};
ghost use Rattle.server_state.specs.TableGone.{HasLostTable, MayLoseTable};
ghost use Rattle.user_memory_rows.specs.Moves.{IsReleased, MayRelease, if_translated};
ghost use Rattle.user_memory_rows.specs.Shown.{over};
ghost use Rattle.page_table_words.specs.Released.{GivesBack};
ghost use Rattle.user_memory.specs.Changes.{never, once};

use crate::held::Held;
use crate::state::State;
use crate::{area_changes, counts};
use area_map::Iter;
use frame_memory::Pool;
use iofd_words::{FileNo, FrameNo, ObjId};
use object_table::{Kind, ObjectTable};
use page_table_set::PageTables;
use std::alloc::Allocator;
use user_memory::UserMemory;

/// The areas go: with its last area a memory object goes. Where they were translated a pin of each goes before. It
/// takes no memory.
pub fn remove<A: Allocator>(
    areas: Iter<'_, A>,
    translated: bool,
    memory: &mut UserMemory<A>,
    pool: &mut Pool<A>,
)
    requires { MayRelease (over areas) (if_translated translated areas) memory.old pool.old.holds }
    ensures { IsReleased (over areas.entry) (if_translated translated areas.entry)
        memory.old memory.new pool.old pool.new }
{
    for area in areas {
        remove_one(area.memory, translated, memory, pool);
    }
}

/// An area over the memory object of this number goes.
fn remove_one<A: Allocator>(
    number: u64,
    translated: bool,
    memory: &mut UserMemory<A>,
    pool: &mut Pool<A>,
)
    requires { MayRelease (once number) (if translated then once number else never) memory.old pool.old.holds }
    ensures { IsReleased (once number) (if translated then once number else never)
        memory.old memory.new pool.old pool.new }
{
    if !translated {
        memory.remove_area(number);
        return;
    }
    memory.unpin(pool, number);
    memory.remove_area(number);
}

/// No page table translates the areas any more: a pin of each goes. It takes no memory.
fn unpin<A: Allocator>(areas: Iter<'_, A>, memory: &mut UserMemory<A>, pool: &mut Pool<A>)
    requires { MayRelease never (over areas) memory.old pool.old.holds }
    ensures { IsReleased never (over areas.entry) memory.old memory.new pool.old pool.new }
{
    for area in areas {
        memory.unpin(pool, area.memory);
    }
}

/// The areas of the address space go, as `remove` has it.
pub fn remove_space<A: Allocator>(
    table: &ObjectTable<Held<A>, A>,
    file: FileNo,
    ioas: ObjId,
    translated: bool,
    memory: &mut UserMemory<A>,
    pool: &mut Pool<A>,
)
    requires { MayRelease (over (own_areas table.now file ioas))
        (if_translated translated (own_areas table.now file ioas))
        memory.old pool.old.holds }
    ensures { IsReleased (over (own_areas table.now file ioas))
        (if_translated translated (own_areas table.now file ioas))
        memory.old memory.new pool.old pool.new }
{
    if let Some(areas) = area_changes::own_areas(table, file, ioas) {
        remove(areas.iter(), translated, memory, pool);
    }
}

/// No page table translates the areas of the address space any more.
fn unpin_space<A: Allocator>(
    table: &ObjectTable<Held<A>, A>,
    file: FileNo,
    ioas: ObjId,
    memory: &mut UserMemory<A>,
    pool: &mut Pool<A>,
)
    requires { MayRelease never (over (own_areas table.now file ioas)) memory.old pool.old.holds }
    ensures { IsReleased never (over (own_areas table.now file ioas)) memory.old memory.new pool.old pool.new }
{
    if let Some(areas) = area_changes::own_areas(table, file, ioas) {
        unpin(areas.iter(), memory, pool);
    }
}

/// Where none of the page tables is over the address space any more, a pin of each of its areas goes. It takes no
/// memory.
fn unpin_untranslated<A: Allocator>(
    table: &ObjectTable<Held<A>, A>,
    page_tables: &PageTables<A>,
    file: FileNo,
    ioas: ObjId,
    memory: &mut UserMemory<A>,
    pool: &mut Pool<A>,
)
    requires { MayRelease never (untranslated_pins page_tables.now table.now file ioas) memory.old pool.old.holds }
    ensures { IsReleased never (untranslated_pins page_tables.now table.now file ioas)
        memory.old memory.new pool.old pool.new }
{
    if !page_tables.has_over(file, ioas) {
        unpin_space(table, file, ioas, memory, pool);
    }
}

/// The file's page table of this id goes, by which no device translates; it is over this address space. The frames of
/// its tables are appended to `given` by rising number, where there is room. With the last page table over the address
/// space a pin of each of its areas goes. It takes no memory.
pub fn remove_page_table<A: Allocator>(
    state: &mut State<A>,
    file: FileNo,
    hwpt: ObjId,
    ioas: ObjId,
    given: &mut Vec<FrameNo, A>,
)
    requires room { CanRemove state.old.pool state.old.page_tables.tables file hwpt
        (vec_capacity given.old - vec_len given.old) }
    requires pins { MayLoseTable file hwpt ioas state.old }
    ensures state { HasLostTable file hwpt ioas state.old state.new }
    ensures given { IfAllStand state.old.pool state.old.page_tables.tables (λ frames leads.
        GivesBack (rows_found frames (hwpt_of state.old.page_tables.tables file hwpt))
        given.old.items given.new.items) }
{
    counts::remove_user(&mut state.objects, file, Kind::Ioas, ioas);
    remove_object(&mut state.objects, file, Kind::Hwpt, hwpt);
    state.page_tables.remove(&mut state.pool, file, hwpt, given);
    unpin_untranslated(
        &state.objects,
        &state.page_tables,
        file,
        ioas,
        &mut state.memory,
        &mut state.pool,
    );
}

/// Takes the file's object of this kind and id out of the table, if nothing there refuses it. All other objects and all
/// areas stay. It takes no memory.
pub fn remove_object<A: Allocator>(
    table: &mut ObjectTable<Held<A>, A>,
    file: FileNo,
    kind: Kind,
    id: ObjId,
)
    ensures rows { destroy_refusal table.old file kind id ≡ None
        → table.new.rows ≡ removed file id table.old.rows }
    ensures files { table.new.files ≡ table.old.files }
{
    let _ = table.destroy(file, kind, id);
}
