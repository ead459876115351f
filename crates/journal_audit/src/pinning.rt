//! Pins of the pages by which areas come: of a memory object that a MAP makes, and of one that a COPY shares. A page is
//! found at the cost of a logarithm, and the first that isn't in its user's memory ends the list.

ghost use Rattle.std.specs.Prelude.{◌≡◌, ◌==◌, ◌≤◌, ◌+◌, ◌^◌, [], true, false, filter, IfOk, MatchOption};
ghost use Rattle.std.specs.Prelude.{if◌then◌else◌};
ghost use Rattle.iofd_rows.specs.Pinned.{has_object, have_own_numbers};
ghost use Rattle.iofd_words.specs.Frames.{frame_at};
ghost use Rattle.iofd_words.specs.Objects.{has_hwpt};
ghost use Rattle.iofd_words.specs.Pages.{page_of};
ghost use Rattle.iofd_words.specs.Pins.{are_present, frame_now, pages_of, pinned_frame, unpinned_pages};
ghost use Rattle.journal_audit.specs.Own.{is_row_of};
ghost use Rattle.journal_audit_page_tables.specs.Listed.{Listed, own_frame};

use iofd_words::{Area, FileNo, MemoryObject, NoMemory, ObjId, Pin, UserPage};
use journal_audit_maps::gathering::object_of;
use journal_audit_page_tables::listing::list_pages;
use journal_audit_page_tables::page_sets::{frames_by_page, pinned_pages};
use journal_audit_world::pages::page_of;
use journal_audit_world::{World, objects};
use std::alloc::Allocator;
use std::collections::BTreeSet;

// Whether it is a row of a page of the memory object.
fn is_page_of(object: MemoryObject, row: &UserPage) -> bool
    ensures { result ≡ is_row_of object row.now }
{
    let first = page_of(object.va);
    row.user.0 == object.user.0 && first <= row.page && row.page - first < object.count
}

// The rows of pages of the memory object, of which the frames are found then.
fn rows_of<A: Allocator + Copy>(
    alloc: A,
    user_pages: &[UserPage],
    object: MemoryObject,
) -> Result<Vec<UserPage, A>, NoMemory>
    ensures { IfOk result (λ rows. rows.items ≡ filter (is_row_of object) user_pages.now) }
{
    let mut rows = Vec::new(alloc);
    for row in user_pages {
        if is_page_of(object, row) {
            rows.push(*row)?;
        }
    }
    Ok(rows)
}

// The pins of the memory object of this number.
fn pins_of<A: Allocator + Copy>(
    alloc: A,
    pins: &[Pin],
    number: u64,
) -> Result<Vec<Pin, A>, NoMemory>
    ensures { IfOk result (λ own. own.items ≡ filter (λ pin. pin.memory == number) pins.now) }
{
    let mut own = Vec::new(alloc);
    for pin in pins {
        if pin.memory == number {
            own.push(*pin)?;
        }
    }
    Ok(own)
}

/// The pins of all pages of a memory object that comes. None where one isn't in its user's memory. The error is want of
/// memory.
pub fn pins_of_new<A: Allocator + Copy>(
    alloc: A,
    user_pages: &[UserPage],
    object: MemoryObject,
) -> Result<Option<Vec<Pin, A>>, NoMemory>
    requires { page_of object.va + object.count ≤ 2 ^ 64 }
    ensures { let now = own_frame (frame_at user_pages.now) object in let pages = pages_of object in
        IfOk result (λ all. MatchOption all (are_present now pages ≡ false)
        (λ found. Listed now [] found.items true pages)) }
{
    let rows = rows_of(alloc, user_pages, object)?;
    let frames = frames_by_page(alloc, &rows)?;
    let pinned = BTreeSet::new(alloc);
    let mut found = Vec::new(alloc);
    if !list_pages(&mut found, &pinned, &frames, object)? {
        return Ok(None);
    }
    Ok(Some(found))
}

/// The same where a page table is over the address space; where none is, no page is pinned.
pub fn pins_in<A: Allocator + Copy>(
    alloc: A,
    world: &World<A>,
    file: FileNo,
    ioas: ObjId,
    object: MemoryObject,
) -> Result<Option<Vec<Pin, A>>, NoMemory>
    requires { page_of object.va + object.count ≤ 2 ^ 64 }
    ensures { let now = own_frame (frame_at world.now.user_pages) object in
        let pages = if has_hwpt world.now.objects file ioas then pages_of object else [] in
        IfOk result (λ all. MatchOption all (are_present now pages ≡ false)
        (λ found. Listed now [] found.items true pages)) }
{
    if !objects::has_hwpt(&world.objects, file, ioas) {
        return Ok(Some(Vec::new(alloc)));
    }
    pins_of_new(alloc, &world.user_pages, object)
}

/// The pins of those pages of the area's memory object that aren't pinned.
pub fn pins_of_shared<A: Allocator + Copy>(
    alloc: A,
    pins: &[Pin],
    memory: &[MemoryObject],
    user_pages: &[UserPage],
    source: &Area,
) -> Result<Option<Vec<Pin, A>>, NoMemory>
    requires numbers { have_own_numbers memory.now ≡ true }
    requires sized { has_object memory.now source.now ≡ true }
    ensures { let now = frame_now memory.now user_pages.now in
        let pages = unpinned_pages (pinned_frame pins.now) (filter (λ m. m.number == source.now.memory) memory.now) in
        IfOk result (λ all. MatchOption all (are_present now pages ≡ false)
        (λ found. Listed now [] found.items true pages)) }
{
    // It is below 2^64, so the pages of the object are too.
    let _last = source.span.last();
    let Some(object) = object_of(memory, source.memory) else {
        return Ok(Some(Vec::new(alloc)));
    };
    let own = pins_of(alloc, pins, source.memory)?;
    let pinned = pinned_pages(alloc, &own)?;
    let rows = rows_of(alloc, user_pages, object)?;
    let frames = frames_by_page(alloc, &rows)?;
    let mut found = Vec::new(alloc);
    if !list_pages(&mut found, &pinned, &frames, object)? {
        return Ok(None);
    }
    Ok(Some(found))
}

/// The same where a page table is over the address space.
pub fn shared_pins_in<A: Allocator + Copy>(
    alloc: A,
    world: &World<A>,
    file: FileNo,
    ioas: ObjId,
    source: &Area,
) -> Result<Option<Vec<Pin, A>>, NoMemory>
    requires numbers { have_own_numbers world.now.memory ≡ true }
    requires sized { has_object world.now.memory source.now ≡ true }
    ensures { let w = world.now in let now = frame_now w.memory w.user_pages in
        let pages = if has_hwpt w.objects file ioas
        then unpinned_pages (pinned_frame w.pins) (filter (λ m. m.number == source.now.memory) w.memory) else [] in
        IfOk result (λ all. MatchOption all (are_present now pages ≡ false)
        (λ found. Listed now [] found.items true pages)) }
{
    if !objects::has_hwpt(&world.objects, file, ioas) {
        return Ok(Some(Vec::new(alloc)));
    }
    pins_of_shared(alloc, &world.pins, &world.memory, &world.user_pages, source)
}
