//! Close: a file goes, with all that it has.

ghost use Rattle.std.specs.Prelude.{◌≡◌, ◌≤◌, ◌-◌, ℕ, not, ◌==◌, filter, length, Option, None};
ghost use Rattle.std.specs.Prelude.{[], IfOk, OnErr, OnOk};
ghost use Rattle.std.specs.Prelude.{IsTrue, vec_capacity, vec_len};
ghost use Rattle.std.specs.List.{list_any};
ghost use Rattle.iofd_refusals.specs.Checks.{close_checks};
ghost use Rattle.iofd_words.specs.FirstTrue.{first_true};
ghost use Rattle.iofd_words.specs.Objects.{objects_of};
ghost use Rattle.iofd_words.specs.declared.event.Event.TheVariants as event;
ghost use Rattle.iofd_words.specs.declared.numbers.FrameNo.{FrameNo};
ghost use Rattle.page_table_set.specs.PageTables.{IfAllStand, objects_of as objects_kept};
ghost use Rattle.page_table_set.specs.Removed.{rows_of_file};
ghost use Rattle.object_table.specs.Table.{closed, rows_of};
ghost use Rattle.server_state.specs.Held.{close_refusal, objects_in};
ghost use Rattle.event_destroy.specs.FileAreas.{areas_of_rows, translated_of};
ghost use Rattle.event_destroy.specs.Held.{keeps_open};
ghost use Rattle.user_memory_rows.specs.Moves.{IsReleased, MayRelease};
ghost use Rattle.user_memory_rows.specs.Shown.{over};
ghost use Rattle.server_state.specs.Seen.{seen};
ghost use Rattle.server_state.specs.Step.{IsGranted, IsKnown, MovingSteps, ShowsSame};
ghost use Rattle.server_state.specs.Tables.{has_page_tables, page_tables_among};

use frame_memory::Pool;
use iofd_words::{Attachment, Cause, FileNo, FrameNo, NoMemory, Reply};
use object_table::ObjectTable;
use page_table_set::PageTables;
use server_state::{Held, State, release};
use std::alloc::Allocator;
use user_memory::UserMemory;

/// Why it is refused, by the first row of the definitions that holds. None where nothing refuses it.
#[tactic(auto, unfolding(iofd_refusals::specs::Checks::close_checks))]
pub fn refusal<A: Allocator>(state: &State<A>, file: FileNo) -> Option<Cause>
    ensures { result ≡ first_true (close_checks (seen state.now) file) }
{
    if !state.objects.is_open(file) {
        return Some(Cause::Id);
    }
    if is_held(&state.objects, file) {
        return Some(Cause::InUse);
    }
    None
}

/// Whether a device is bound to the file, or it has an access object.
fn is_held<A: Allocator>(table: &ObjectTable<Held<A>, A>, file: FileNo) -> bool
    ensures { result ≡ list_any (λ object. keeps_open object.kind) (objects_of (objects_in table.now) file) }
{
    table.is_held(file)
}

/// What it does where nothing refuses it: the file's objects, allowed ranges and attachments go, and its areas with
/// their memory objects and the pins of their pages. Its page tables give the frames of their tables back, which are
/// listed by rising number, and aren't tracked any more.
///
/// The only error is want of memory for that list, where there are page tables. It leaves the world as it was.
pub fn commit<A: Allocator>(
    state: &mut State<A>,
    file: FileNo,
    given: &mut Vec<FrameNo, A>,
) -> Result<Reply, NoMemory>
    requires granted { IsGranted (event.Close file) state.old }
    requires none { given.old.items ≡ [] }
    ensures ok { IfOk result (λ reply. (at : ℕ) (via : Option FrameNo) →
        MovingSteps at (event.Close file) via state.old reply [] given.new.items state.new) }
    ensures err { OnErr result (ShowsSame state.old state.new) }
    ensures none_err { OnErr result (given.new.items ≡ []) }
    ensures memory { OnErr result (IsTrue (has_page_tables (objects_in state.old.objects) file)) }
{
    reserve_given(state, file, given)?;
    state.allowed.remove_file(file);
    state.dirty.stop_file(file);
    remove_areas(
        &state.objects,
        &state.page_tables,
        file,
        &mut state.memory,
        &mut state.pool,
    );
    detach_all(&mut state.attachments, file);
    state.page_tables.remove_file(&mut state.pool, file, given);
    close_table(&mut state.objects, file);
    Ok(Reply::Done)
}

/// Takes memory for the numbers of the frames that the file's page tables give back where they go. None are listed yet.
/// Memory may be wanting only where there are page tables.
fn reserve_given<A: Allocator>(
    state: &State<A>,
    file: FileNo,
    given: &mut Vec<FrameNo, A>,
) -> Result<(), NoMemory>
    requires { IsKnown state.now }
    ensures same { given.new.items ≡ given.old.items }
    ensures room { OnOk result (IfAllStand state.now.pool state.now.page_tables.tables (λ frames leads.
        length (rows_of_file frames file state.now.page_tables.tables) ≤ vec_capacity given.new - vec_len given.new)) }
    ensures memory { OnErr result (IsTrue (has_page_tables (objects_in state.now.objects) file)) }
{
    let count = frames_of(state, file);
    given.reserve(count as usize)?;
    Ok(())
}

/// How many frames the tables of the file's page tables are in. It visits each entry of each table above the last
/// level.
fn frames_of<A: Allocator>(state: &State<A>, file: FileNo) -> u64
    requires { IsKnown state.now }
    ensures { IfAllStand state.now.pool state.now.page_tables.tables (λ frames leads.
        result ≡ length (rows_of_file frames file state.now.page_tables.tables)) }
{
    // It has so few frames that the sum fits.
    state.pool.facts();
    let mut count = 0;
    for hwpt in state.page_tables.as_slice() {
        let object = hwpt.object();
        if object.file == file {
            count += state.page_tables.frames(&state.pool, file, object.id);
        }
    }
    count
}

/// The areas of all address spaces of the file go.
fn remove_areas<A: Allocator>(
    table: &ObjectTable<Held<A>, A>,
    tables: &PageTables<A>,
    file: FileNo,
    memory: &mut UserMemory<A>,
    pool: &mut Pool<A>,
)
    requires tables { objects_kept tables.now ≡ page_tables_among (objects_in table.now) }
    requires may { MayRelease (over (areas_of_rows (rows_of table.now file)))
        (over (translated_of (objects_in table.now) (rows_of table.now file)))
        memory.old pool.old.holds }
    ensures { IsReleased (over (areas_of_rows (rows_of table.now file)))
        (over (translated_of (objects_in table.now) (rows_of table.now file)))
        memory.old memory.new pool.old pool.new }
{
    for object in table.iter(file) {
        if let Held::Ioas(areas) = object.value {
            let translated = tables.has_over(file, object.id);
            release::remove(areas.iter(), translated, memory, pool);
        }
    }
}

/// Drops the attachments of the file's devices.
fn detach_all<A: Allocator>(attachments: &mut Vec<Attachment, A>, file: FileNo)
    ensures { attachments.new.items ≡ filter (λ a. not (a.file.0 == file.0)) attachments.old.items }
{
    attachments.retain(|a| a.file != file);
}

/// Closes the file's table, if nothing there refuses it.
fn close_table<A: Allocator>(table: &mut ObjectTable<Held<A>, A>, file: FileNo)
    ensures { close_refusal table.old file ≡ None → table.new ≡ closed table.old file }
{
    match table.close_file(file) {
        Ok(()) => (),
        Err(_) => (),
    }
}
