//! A page table that comes: what it asks of its file and of the pages that it pins, and how it is made.

ghost use Rattle.std.specs.Prelude.{◌≡◌, ◌<◌, ◌≤◌, ◌+◌, ℕ, false, [], length, IfOk, IsSome};
ghost use Rattle.std.specs.Prelude.{OnErr, OnOk};
ghost use Rattle.std.specs.Prelude.{vec_capacity, vec_len};
ghost use Rattle.iofd_refusals.specs.Checks.{lacks_attached_page, passes_limit_attached};
ghost use Rattle.iofd_words.specs.TablePlaces.{lacking, live_pages, places_of};
ghost use Rattle.object_table.specs.Table.{reserved_id};
ghost use Rattle.server_state.specs.declared.held.Held.TheVariants as held;
ghost use Rattle.iofd_words.specs.Objects as objects;
ghost use Rattle.iofd_words.specs.Objects.{has_hwpt};
ghost use Rattle.server_state.specs.Held.{areas_at, objects_in};
ghost use Rattle.server_state.specs.Mapping.{own_areas};
ghost use Rattle.hwpt_device.specs.Making.{IsMade, MayCome, made_object};
ghost use Rattle.hwpt_device.specs.Making as words;
ghost use Rattle.hwpt_device.specs.Making.{lacks_tables};
ghost use Rattle.iofd_words.specs.Span.{meets};
ghost use Rattle.iofd_words.specs.Usable.{beyond};
ghost use Rattle.std.specs.List.{list_any};
ghost use Rattle.hwpt_device.specs.Pinning.{Stays, newly_translated};
ghost use Rattle.user_memory_rows.specs.Moves.{ArePinnedMore, MayPin, PinsAreKnown};
ghost use Rattle.server_state.specs.Seen.{seen};
ghost use Rattle.server_state.specs.Step.{IsKnown, ShowsSame};

use crate::{filling, pins};
use frame_memory::Pool;
use iofd_words::{
    CallError, Config, DeviceNo, FileNo, FrameNo, NoMemory, ObjId, Object, ObjectKind, UserNo,
    Width,
};
use object_table::{Kind, ObjectTable};
use server_state::{Held, State, accounts, area_changes, counts, lookups};
use std::alloc::Allocator;
use user_memory::UserMemory;

/// Makes a page table of this width over the address space, and answers its id. The first one pins the pages of all
/// areas. It maps the live ones, with its tables in the least free frames, which are named in `taken`. The only error
/// is want of memory, which changes nothing.
pub(crate) fn make<A: Allocator + Copy>(
    state: &mut State<A>,
    file: FileNo,
    ioas: ObjId,
    width: Width,
    automatic: bool,
    taken: &mut Vec<FrameNo, A>,
) -> Result<ObjId, NoMemory>
    requires may { MayCome file ioas width state.old }
    requires empty { taken.old.items ≡ [] }
    ensures ok { IfOk result (λ id. (at : ℕ) →
        IsMade at file ioas width automatic state.old id taken.new.items state.new) }
    ensures err { OnErr result (ShowsSame state.old state.new) }
    ensures none { OnErr result (taken.new.items ≡ []) }
    ensures attachments { state.new.attachments ≡ state.old.attachments }
    ensures config { state.new.config ≡ state.old.config }
{
    let Some(user) = accounts::user_of(&state.config, file) else {
        // Each file has a user.
        unreachable!()
    };
    reserve(state, file, ioas, width, taken)?;
    let translated = state.page_tables.has_over(file, ioas);
    pin_space(
        state.alloc,
        &state.objects,
        file,
        ioas,
        translated,
        user,
        &mut state.memory,
        &mut state.pool,
    )?;
    counts::add_user(&mut state.objects, file, Kind::Ioas, ioas);
    let table = held_table(ioas, width, automatic);
    let id = state.objects.insert_reserved(file, table);
    filling::add(
        &state.objects,
        ioas,
        table_object(file, ioas, id, width, automatic),
        width,
        &state.memory,
        &mut state.page_tables,
        &mut state.pool,
        taken,
    );
    state.pool.facts();
    Ok(id)
}

/// What the page table is as an object of its file.
fn table_object(file: FileNo, ioas: ObjId, id: ObjId, width: Width, automatic: bool) -> Object
    ensures { result ≡ made_object file ioas id width automatic }
{
    Object {
        file,
        id,
        kind: ObjectKind::Hwpt {
            ioas,
            width,
            automatic,
        },
    }
}

/// What the file holds of it.
fn held_table<A: Allocator>(ioas: ObjId, width: Width, automatic: bool) -> Held<A>
    ensures { result ≡ held.Hwpt ioas width automatic }
{
    Held::Hwpt {
        ioas,
        width,
        automatic,
    }
}

/// Takes memory for one more page table, for the numbers of its frames, and for one more object of the file, which is
/// open and not full. It changes nothing else, on an error neither.
fn reserve<A: Allocator + Copy>(
    state: &mut State<A>,
    file: FileNo,
    ioas: ObjId,
    width: Width,
    taken: &mut Vec<FrameNo, A>,
) -> Result<(), NoMemory>
    requires { MayCome file ioas width state.old }
    ensures rows { state.new.objects.rows ≡ state.old.objects.rows }
    ensures files { state.new.objects.files ≡ state.old.objects.files }
    ensures tables { state.new.page_tables.tables ≡ state.old.page_tables.tables }
    ensures others { state.new
        ≡ record state.old { objects = state.new.objects; page_tables = state.new.page_tables } }
    ensures numbers { taken.new.items ≡ taken.old.items }
    ensures table_room { OnOk result (0 < state.new.page_tables.room) }
    ensures frame_room { OnOk result (vec_len taken.old + length (lacking (λ place. false) (places_of width
        (live_pages (areas_at state.old.objects.rows file ioas)))) ≤ vec_capacity taken.new) }
    ensures object_room { OnOk result (IsSome (reserved_id state.new.objects file)) }
{
    let count = state.tables_for_new(file, ioas, width);
    taken.reserve(count as usize)?;
    state.page_tables.reserve()?;
    match state.objects.reserve(file) {
        Ok(_) => Ok(()),
        // The file is open and not full.
        Err(CallError::Refused(_)) => unreachable!(),
        Err(CallError::Memory(no_memory)) => Err(no_memory),
    }
}

/// Pins the pages of all areas of the address space, for its first page table; where it is translated already they are
/// pinned. An error leaves all pins as they were.
fn pin_space<A: Allocator + Copy>(
    alloc: A,
    table: &ObjectTable<Held<A>, A>,
    file: FileNo,
    ioas: ObjId,
    translated: bool,
    user: UserNo,
    memory: &mut UserMemory<A>,
    pool: &mut Pool<A>,
) -> Result<(), NoMemory>
    requires translated { translated ≡ has_hwpt (objects_in table.now) file ioas }
    requires known { PinsAreKnown memory.old }
    requires may { has_hwpt (objects_in table.now) file ioas ≡ false
        → MayPin user (own_areas table.now file ioas) memory.old pool.old.holds }
    ensures ok { OnOk result (ArePinnedMore
        (newly_translated (objects_in table.now) file ioas (own_areas table.now file ioas))
        memory.old memory.new pool.old pool.new) }
    ensures err { OnErr result (Stays memory.old memory.new pool.old pool.new) }
{
    if translated {
        return Ok(());
    }
    let Some(areas) = area_changes::own_areas(table, file, ioas) else {
        return Ok(());
    };
    let numbers = pins::numbers_of(alloc, areas)?;
    memory.objects_told();
    memory.pin(pool, user, &numbers)
}

/// The width of the device's addresses, if there is such a device.
pub(crate) fn width_of<A: Allocator>(config: &Config<A>, device: DeviceNo) -> Option<Width>
    ensures { result ≡ words.width_of config.now device }
{
    Some(config.device(device)?.width())
}

/// Whether the file has as many objects as it may have.
pub(crate) fn is_full<A: Allocator>(table: &ObjectTable<Held<A>, A>, file: FileNo) -> bool
    ensures { result ≡ objects.is_full (objects_in table.now) file }
{
    table.is_full(file)
}

/// Whether the first page table over the address space would have to pin a page that isn't in its user's memory.
pub(crate) fn lacks_page<A: Allocator>(state: &State<A>, file: FileNo, ioas: ObjId) -> bool
    requires { IsKnown state.now }
    ensures { result ≡ lacks_attached_page (seen state.now) file ioas }
{
    if state.has_hwpt(file, ioas) {
        return false;
    }
    match lookups::areas_of(&state.objects, file, ioas) {
        Some(areas) => {
            state.memory.objects_told();
            pins::lack_page(areas, &state.memory)
        }
        None => false,
    }
}

/// Whether with the pages that the first page table over the address space would pin the file's user would have more
/// pinned pages than the limit allows.
pub(crate) fn passes_limit<A: Allocator + Copy>(state: &State<A>, file: FileNo, ioas: ObjId) -> bool
    requires { IsKnown state.now }
    ensures { result ≡ passes_limit_attached (seen state.now) file ioas }
{
    if state.has_hwpt(file, ioas) {
        return false;
    }
    let Some(areas) = lookups::areas_of(&state.objects, file, ioas) else {
        return accounts::passes_limit(state, file, 0);
    };
    let most = pins::most_new_pages(areas, &state.memory);
    if !accounts::passes_limit(state, file, most) {
        return false;
    }
    // Only here does it matter what areas share.
    let count = pins::new_pages(state.alloc, areas, &state.memory);
    accounts::passes_limit(state, file, count)
}

/// Whether a new page table of this width over the address space would have more tables than frames are free. No area
/// reaches beyond the width.
pub(crate) fn lacks_frames<A: Allocator>(
    state: &State<A>,
    file: FileNo,
    ioas: ObjId,
    width: Width,
) -> bool
    requires known { IsKnown state.now }
    requires within { list_any (λ area. meets (beyond width) area.span)
        (areas_at state.now.objects.rows file ioas) ≡ false }
    ensures { result ≡ lacks_tables (seen state.now) file ioas width }
{
    state.tables_for_new(file, ioas, width) > u64::from(state.pool.free_count())
}
