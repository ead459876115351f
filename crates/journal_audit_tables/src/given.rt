//! The frames of tables that a record gives back.

ghost use Rattle.std.specs.Prelude.{◌≡◌, ◌==◌, ◌&&◌, ◌||◌, ℕ, not, IfOk};
ghost use Rattle.std.specs.List.{list_all, list_any};
ghost use Rattle.iofd_words.specs.Tables.{is_among};
ghost use Rattle.journal_audit_events.specs.Gone.{is_gone};
ghost use Rattle.journal_audit_tables.specs.Moved.{are_given, is_idle_in, may_give, thinned_by};
ghost use Rattle.journal_audit_tables.specs.Numbers.{has_number};

use crate::frames::{has, set_of};
use crate::idle::is_idle;
use iofd_words::{Area, Event, FileNo, FrameNo, NoMemory, ObjId, Object, Reply, TableFrame};
use journal_audit_events::gone::Gone;
use journal_audit_world::{World, tables};
use std::alloc::Allocator;
use std::collections::BTreeSet;

/// The address space whose idle tables the event may give back.
pub(crate) fn thinned_by<A: Allocator>(event: &Event<A>, reply: Reply) -> Option<(FileNo, ObjId)>
    ensures { result ≡ thinned_by event.now reply }
{
    match event {
        Event::Unmap(file, request) => match reply {
            Reply::Bytes(_) => Some((*file, request.ioas)),
            _ => None,
        },
        _ => None,
    }
}

// Whether the row is one that goes.
fn is_gone(gone: Gone, table: &TableFrame) -> bool
    ensures { result ≡ is_gone gone table.now }
{
    match gone {
        Gone::Nothing => false,
        Gone::PageTable(file, hwpt) => table.file.0 == file.0 && table.hwpt.0 == hwpt.0,
        Gone::File(file) => table.file.0 == file.0,
    }
}

fn is_idle_in(
    objects: &[Object],
    areas: &[Area],
    space: Option<(FileNo, ObjId)>,
    table: &TableFrame,
) -> bool
    ensures { result ≡ is_idle_in objects.now areas.now space table.now }
{
    match space {
        Some((file, ioas)) => is_idle(objects, areas, file, ioas, table),
        None => false,
    }
}

// Whether the row goes, or may.
fn may_give(
    gone: Gone,
    objects: &[Object],
    areas: &[Area],
    space: Option<(FileNo, ObjId)>,
    table: &TableFrame,
) -> bool
    ensures { result ≡ may_give gone objects.now areas.now space table.now }
{
    is_gone(gone, table) || is_idle_in(objects, areas, space, table)
}

// Whether the row stays, or its frame is in the set.
fn is_in<A: Allocator>(set: &BTreeSet<u32, A>, gone: Gone, table: &TableFrame) -> bool
    ensures { result ≡ (not (is_gone gone table.now) || has_number set.now.keys table.now.frame.0) }
{
    !is_gone(gone, table) || has(set, table.frame)
}

// Whether each row that goes has its frame in the set.
fn are_in<A: Allocator>(set: &BTreeSet<u32, A>, gone: Gone, tables: &[TableFrame]) -> bool
    ensures { result ≡ list_all (λ table. not
        (is_gone gone table) || has_number set.now.keys table.frame.0) tables.now }
{
    for table in tables {
        if !is_in(set, gone, table) {
            return false;
        }
    }
    true
}

// Whether the row's frame is in the set, and it may go.
fn may_leave<A: Allocator>(
    set: &BTreeSet<u32, A>,
    gone: Gone,
    world: &World<A>,
    space: Option<(FileNo, ObjId)>,
    table: &TableFrame,
) -> bool
    ensures { let w = world.now in result
        ≡ (has_number set.now.keys table.now.frame.0 && may_give gone w.objects w.areas space table.now) }
{
    has(set, table.frame) && may_give(gone, &world.objects, &world.areas, space, table)
}

// The frame too, if it is asked for.
fn add<A: Allocator + Copy>(
    set: &mut BTreeSet<u32, A>,
    frame: FrameNo,
    is_asked: bool,
) -> Result<(), NoMemory>
    ensures { IfOk result (λ _. (n : ℕ) → has_number set.new.keys n
        ≡ (has_number set.old.keys n || (is_asked && (frame.0 == n)))) }
{
    if is_asked {
        set.insert(frame.0)?;
    }
    Ok(())
}

// Of the frames of the set those of rows that may go.
fn leaving<A: Allocator + Copy>(
    alloc: A,
    set: &BTreeSet<u32, A>,
    gone: Gone,
    world: &World<A>,
    space: Option<(FileNo, ObjId)>,
) -> Result<BTreeSet<u32, A>, NoMemory>
    ensures { let w = world.now in IfOk result (λ leaving. (n : ℕ) → has_number leaving.keys n
        ≡ list_any (λ table. (has_number set.now.keys table.frame.0 && may_give gone w.objects w.areas space table)
        && (table.frame.0 == n)) w.table_frames) }
{
    let mut leaving = BTreeSet::new(alloc);
    for table in &world.table_frames {
        add(
            &mut leaving,
            table.frame,
            may_leave(set, gone, world, space, table),
        )?;
    }
    Ok(leaving)
}

fn have_all<A: Allocator>(set: &BTreeSet<u32, A>, frames: &[FrameNo]) -> bool
    ensures { result ≡ list_all (λ frame. has_number set.now.keys frame.0) frames.now }
{
    for frame in frames {
        if !has(set, *frame) {
            return false;
        }
    }
    true
}

/// Whether the frames rise, have those of all rows that go among them, and are each that of a row that goes or may. The
/// rows of tables are gone through twice; only for one whose frame is given back by an UNMAP the objects and areas are
/// gone through too.
pub(crate) fn are_given<A: Allocator + Copy>(
    alloc: A,
    world: &World<A>,
    gone: Gone,
    space: Option<(FileNo, ObjId)>,
    given: &[FrameNo],
) -> Result<bool, NoMemory>
    ensures { IfOk result (λ so. so ≡ are_given gone space world.now given.now) }
{
    if !tables::are_rising(given) {
        return Ok(false);
    }
    let set = set_of(alloc, given)?;
    if !are_in(&set, gone, &world.table_frames) {
        return Ok(false);
    }
    let leaving = leaving(alloc, &set, gone, world, space)?;
    Ok(have_all(&leaving, given))
}
