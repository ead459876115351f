//! Pages that are to be pinned anew, each at the frame that its user has there now.

ghost use Rattle.std.specs.Prelude.{◌≡◌, ◌<◌, ℕ, ◌==◌, ◌&&◌, ◌+◌, ◌*◌, ◌∷◌, [], true, false, find, IfOk, MatchOption};
ghost use Rattle.std.specs.List.{flat_map, list_all};
ghost use Rattle.iofd_rows.specs.Pinned.{has_object, have_own_numbers};
ghost use Rattle.iofd_words.specs.Accesses.{is_spanned};
ghost use Rattle.iofd_words.specs.Areas.{areas_of, is_of};
ghost use Rattle.iofd_words.specs.Frames.{frame_at};
ghost use Rattle.iofd_words.specs.Pins.{frame_now, pages_of, span_of_page};
ghost use Rattle.iofd_words.specs.Span.{lies_in, meets, span_from};
ghost use Rattle.journal_audit_world.specs.Keys.{has_number};
ghost use Rattle.journal_audit_maps.specs.Newly.{Gathers, IsNext, lesser, newly_spanned, unpinned_of};
ghost use Rattle.journal_audit_world.specs.Over.{is_over};

use crate::asked::Asked;
use iofd_words::{
    Area, FileNo, FrameNo, MemoryObject, NoMemory, ObjId, PAGE_SIZE, Pin, UserNo, UserPage,
};
use journal_audit_world::areas::is_of;
use journal_audit_world::pages::page_of;
use journal_audit_world::pins::pinned_frame;
use journal_audit_world::{Numbers, over};
use std::alloc::Allocator;

// Whether it is the row of the user's page.
fn is_page_of(user: UserNo, page: u128, row: UserPage) -> bool
    ensures { result ≡ (row.user.0 == user.0 && row.page == page) }
{
    row.user.0 == user.0 && u128::from(row.page) == page
}

// The frame of a page in a user's memory; no user has a page from 2^64 on.
fn frame_at(pages: &[UserPage], user: UserNo, page: u128) -> Option<FrameNo>
    ensures { result ≡ frame_at pages.now user page }
{
    for other in pages {
        if is_page_of(user, page, *other) {
            return Some(other.frame);
        }
    }
    None
}

/// The memory object of this number.
pub fn object_of(memory: &[MemoryObject], number: u64) -> Option<MemoryObject>
    ensures { result ≡ find (λ m. m.number == number) memory.now }
{
    for object in memory {
        if object.number == number {
            return Some(*object);
        }
    }
    None
}

// The frame that a page of a memory object has in its user's memory now.
fn frame_now(
    memory: &[MemoryObject],
    user_pages: &[UserPage],
    number: u64,
    index: u64,
) -> Option<FrameNo>
    ensures { result ≡ frame_now memory.now user_pages.now (record { memory = number; index = index }) }
{
    match object_of(memory, number) {
        Some(object) => {
            let page = u128::from(page_of(object.va)) + u128::from(index);
            frame_at(user_pages, object.user, page)
        }
        None => None,
    }
}

/// The pin of the page is added, unless it is pinned already. False where it isn't in its user's memory.
pub fn gather_page<A: Allocator>(
    found: &mut Vec<Pin, A>,
    pins: &[Pin],
    memory: &[MemoryObject],
    user_pages: &[UserPage],
    number: u64,
    index: u64,
) -> Result<bool, NoMemory>
    ensures { IfOk result (λ all. Gathers all memory.now user_pages.now
        (unpinned_of pins.now (record { memory = number; index = index } ∷ [])) found.old.items found.new.items) }
{
    if pinned_frame(pins, number, index).is_some() {
        return Ok(true);
    }
    let Some(frame) = frame_now(memory, user_pages, number, index) else {
        return Ok(false);
    };
    found.push(Pin {
        memory: number,
        index,
        frame,
    })?;
    Ok(true)
}

// ---- which pages lie in a span

// The least index from this one on of a page that lies in the span, where the first page begins at this address.
fn next_lying(first: u64, asked: Asked, from: u64) -> Option<u64>
    ensures { IsNext (λ i. lies_in (span_from (first + 4096 * i) 4096) asked) from result }
{
    let low = match asked.first.checked_sub(first) {
        Some(0) | None => 0,
        Some(before) => (before - 1) / PAGE_SIZE + 1,
    };
    let index = from.max(low);
    let last = u128::from(first) + 4096 * u128::from(index) + 4095;
    if last <= asked.last {
        Some(index)
    } else {
        None
    }
}

// The least page of the memory object, from this one on, that the area has where it is asked for, if the area is of the
// address space and over the object.
fn next_in(
    area: &Area,
    file: FileNo,
    ioas: ObjId,
    asked: Asked,
    number: u64,
    from: u64,
) -> Option<u64>
    ensures { IsNext (λ i. is_of file ioas area.now
        && (area.now.memory == number && lies_in (span_of_page area.now i) asked)) from result }
{
    if is_of(file, ioas, area) && area.memory == number {
        next_lying(area.span.first(), asked, from)
    } else {
        None
    }
}

// The lesser of two, where there are any.
fn lesser(a: Option<u64>, b: Option<u64>) -> Option<u64>
    ensures { result ≡ lesser a b }
{
    match (a, b) {
        (Some(a), Some(b)) => Some(a.min(b)),
        (Some(a), None) => Some(a),
        (None, b) => b,
    }
}

// The least page of the memory object, from this one on, that some area of the address space has where it is asked for.
fn next_spanned(
    areas: &[Area],
    file: FileNo,
    ioas: ObjId,
    asked: Asked,
    number: u64,
    from: u64,
) -> Option<u64>
    ensures { IsNext (λ i. is_spanned asked (areas_of areas.now file ioas) (record { memory = number; index = i })) from
        result }
{
    let mut least = None;
    for area in areas {
        least = lesser(least, next_in(area, file, ioas, asked, number, from));
    }
    least
}

// ---- all of them

// The pins of the pages of the memory object that lie in the span are added. False where one isn't there.
fn gather_object<A: Allocator>(
    found: &mut Vec<Pin, A>,
    areas: &[Area],
    pins: &[Pin],
    memory: &[MemoryObject],
    user_pages: &[UserPage],
    file: FileNo,
    ioas: ObjId,
    asked: Asked,
    object: MemoryObject,
) -> Result<bool, NoMemory>
    ensures { IfOk result (λ all. Gathers all memory.now user_pages.now
        (newly_spanned pins.now areas.now file ioas asked (pages_of object)) found.old.items found.new.items) }
{
    let mut from: u64 = 0;
    for _step in 0..object.count {
        let Some(index) = next_spanned(areas, file, ioas, asked, object.number, from) else {
            return Ok(true);
        };
        if index >= object.count {
            return Ok(true);
        }
        if !gather_page(found, pins, memory, user_pages, object.number, index)? {
            return Ok(false);
        }
        from = index + 1;
    }
    Ok(true)
}

// Gathers the pages of a memory object that lie in the span and aren't pinned, if it is asked for; of one that isn't,
// no page lies there.
fn gather_asked<A: Allocator>(
    found: &mut Vec<Pin, A>,
    areas: &[Area],
    pins: &[Pin],
    memory: &[MemoryObject],
    user_pages: &[UserPage],
    file: FileNo,
    ioas: ObjId,
    asked: Asked,
    object: MemoryObject,
    is_asked: bool,
) -> Result<bool, NoMemory>
    requires { is_asked ≡ false → (i : ℕ) → i < object.count
        → is_spanned asked (areas_of areas.now file ioas) (record { memory = object.number; index = i }) ≡ false }
    ensures { IfOk result (λ all. Gathers all memory.now user_pages.now
        (newly_spanned pins.now areas.now file ioas asked (pages_of object)) found.old.items found.new.items) }
{
    if !is_asked {
        return Ok(true);
    }
    gather_object(
        found, areas, pins, memory, user_pages, file, ioas, asked, object,
    )
}

/// The pins of the pages that lie in the span, in some area of the address space, and aren't pinned yet. None where one
/// isn't in its user's memory. Only memory objects of areas that meet the span are gone through. The error is want of
/// memory.
pub fn gather<A: Allocator + Copy>(
    alloc: A,
    areas: &[Area],
    pins: &[Pin],
    memory: &[MemoryObject],
    user_pages: &[UserPage],
    file: FileNo,
    ioas: ObjId,
    asked: Asked,
) -> Result<Option<Vec<Pin, A>>, NoMemory>
    requires own { have_own_numbers memory.now ≡ true }
    requires sizes { list_all (has_object memory.now) areas.now ≡ true }
    ensures { let pages = newly_spanned pins.now areas.now file ioas asked (flat_map pages_of memory.now) in
        IfOk result (λ all. MatchOption all (Gathers false memory.now user_pages.now pages [] [])
        (λ found. Gathers true memory.now user_pages.now pages [] found.items)) }
{
    let numbers = numbers_in(alloc, areas, file, ioas, asked)?;
    let mut found = Vec::new(alloc);
    for object in memory {
        let is_asked = numbers.has(object.number);
        if !gather_asked(
            &mut found, areas, pins, memory, user_pages, file, ioas, asked, *object, is_asked,
        )? {
            return Ok(None);
        }
    }
    Ok(Some(found))
}

// The numbers of the memory objects of areas that meet the span.
fn numbers_in<A: Allocator + Copy>(
    alloc: A,
    areas: &[Area],
    file: FileNo,
    ioas: ObjId,
    asked: Asked,
) -> Result<Numbers<A>, NoMemory>
    ensures { IfOk result (λ numbers. (n : ℕ) → has_number numbers n
        ≡ is_over (λ area. is_of file ioas area && meets area.span asked) areas.now n) }
{
    let mut numbers = Numbers::new(alloc);
    over::add_meeting(&mut numbers, areas, file, ioas, asked.first, asked.last)?;
    Ok(numbers)
}
