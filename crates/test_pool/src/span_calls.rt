//! Pins by accesses of the areas under a span: two areas lie over the one page of a memory object, so that it gets two
//! pins at one frame and is counted once.

ghost use Rattle.std.specs.Prelude.{◌≡◌, ◌+◌, ◌≤◌, ◌<◌, [], ◌∷◌, true, if◌then◌else◌};
ghost use Rattle.test_pool.specs.TwoAreas.{HasPins, area_over, page_run, the_span, two_areas};
ghost use Rattle.user_memory.specs.Memory.{IsBacked};

use crate::heaps::block;
use access_pages::{meeting, pin_all, unpin_all};
use area_map::Areas;
use frame_memory::Pool;
use iofd_words::{Area, FileNo, FrameNo, MemoryObject, ObjId, Phase, Rights, Span, UserNo};
use linked_list_allocator::LocalHeap;
use std::alloc::Allocator;
use user_memory::{PageRun, UserMemory};

/// The span from the one address to the other.
fn span_of(first: u64, last: u64) -> Span
    requires { first ≤ last }
    ensures { result ≡ record { first = first; last = last } }
{
    let Some(span) = Span::new(first, last) else {
        // It isn't empty.
        unreachable!()
    };
    span
}

/// The span that meets both areas.
fn the_span() -> Span
    ensures { result ≡ the_span }
{
    span_of(0x1800, 0x37ff)
}

/// An area over the object.
fn area(span: Span) -> Area
    ensures { result ≡ area_over span }
{
    Area {
        file: FileNo(1),
        ioas: ObjId(1),
        span,
        memory: 0,
        rights: Rights(3),
        phase: Phase::Live,
    }
}

/// Whether the map gets the two areas.
fn has_two<A: Allocator + Copy>(areas: &mut Areas<A>) -> bool
    requires { areas.old.areas ≡ [] }
    ensures { result ≡ true → areas.new.areas ≡ two_areas }
{
    if areas.insert(area(span_of(0x1000, 0x1fff))).is_err() {
        return false;
    }
    areas.insert(area(span_of(0x3000, 0x3fff))).is_ok()
}

/// A run of the object's one page.
fn page() -> PageRun
    ensures { result ≡ page_run }
{
    PageRun {
        number: 0,
        first: 0,
        count: 1,
    }
}

/// The frame that the user's page gets; None where there is none, or no memory for it.
fn given<A: Allocator + Copy>(
    memory: &mut UserMemory<A>,
    pool: &mut Pool<A>,
    pins: u64,
) -> Option<FrameNo>
    requires { HasPins memory.old pool.old.holds pins }
    ensures { HasPins memory.new pool.new.holds pins }
{
    if memory.frame_at(UserNo(1), 0x10000).is_some() || !pool.has_free() {
        return None;
    }
    match memory.map_page(pool, UserNo(1), 0x10000) {
        Ok(frame) => Some(frame),
        Err(_) => None,
    }
}

/// Takes the user's page away. Whether it was there.
fn taken<A: Allocator + Copy>(memory: &mut UserMemory<A>, pool: &mut Pool<A>, pins: u64) -> bool
    requires { HasPins memory.old pool.old.holds pins }
    ensures { HasPins memory.new pool.new.holds pins }
{
    if memory.frame_at(UserNo(1), 0x10000).is_none() {
        return false;
    }
    memory.unmap_page(pool, UserNo(1), 0x10000);
    true
}

/// Pins all that the areas have in the span: the page once for each of the two. Whether it is done: not where the page
/// isn't there, the user may not have it pinned, or memory is lacking.
fn pinned<A: Allocator + Copy>(
    areas: &Areas<A>,
    memory: &mut UserMemory<A>,
    pool: &mut Pool<A>,
    pins: u64,
) -> bool
    requires areas { areas.now.areas ≡ two_areas }
    requires page { HasPins memory.old pool.old.holds pins }
    requires few { pins < 3 }
    ensures { HasPins memory.new pool.new.holds (pins + (if result then 2 else 0)) }
{
    let count = memory.new_pages_in(page());
    if memory.lacks_page_in(page()) || !memory.has_room(UserNo(1), u128::from(count)) {
        return false;
    }
    match pin_all(meeting(areas, the_span()), the_span(), memory, pool) {
        Ok(()) => true,
        Err(_) => false,
    }
}

/// The same while a block has all of the heap.
fn pinned_in_full<A: Allocator + Copy>(
    heap: &LocalHeap,
    areas: &Areas<A>,
    memory: &mut UserMemory<A>,
    pool: &mut Pool<A>,
    pins: u64,
) -> bool
    requires areas { areas.now.areas ≡ two_areas }
    requires page { HasPins memory.old pool.old.holds pins }
    requires few { pins < 3 }
    ensures { HasPins memory.new pool.new.holds (pins + (if result then 2 else 0)) }
{
    match block(heap) {
        Ok(_block) => pinned(areas, memory, pool, pins),
        Err(_) => false,
    }
}

/// Whether nothing is pinned for want of memory then.
fn is_refused<A: Allocator + Copy>(
    heap: &LocalHeap,
    areas: &Areas<A>,
    memory: &mut UserMemory<A>,
    pool: &mut Pool<A>,
) -> bool
    requires areas { areas.now.areas ≡ two_areas }
    requires page { HasPins memory.old pool.old.holds 0 }
    ensures { result ≡ true → HasPins memory.new pool.new.holds 0 }
{
    let refused = match block(heap) {
        Ok(_block) => !pinned(areas, memory, pool, 0),
        Err(_) => false,
    };
    refused && memory.frame(0, 0).is_none() && memory.has_room(UserNo(1), 2)
}

/// Takes both pins off again.
fn unpinned<A: Allocator + Copy>(
    areas: &Areas<A>,
    memory: &mut UserMemory<A>,
    pool: &mut Pool<A>,
    pins: u64,
)
    requires areas { areas.now.areas ≡ two_areas }
    requires page { HasPins memory.old pool.old.holds (pins + 2) }
    ensures { HasPins memory.new pool.new.holds pins }
{
    unpin_all(meeting(areas, the_span()), the_span(), memory, pool);
}

/// Takes one pin off the page.
fn unpin<A: Allocator + Copy>(memory: &mut UserMemory<A>, pool: &mut Pool<A>, pins: u64)
    requires { HasPins memory.old pool.old.holds (pins + 1) }
    ensures { HasPins memory.new pool.new.holds pins }
{
    memory.unpin_by_access(pool, page());
}

/// Whether the page is pinned at the frame, and counted once.
fn keeps<A: Allocator>(memory: &UserMemory<A>, pool: &Pool<A>, frame: FrameNo) -> bool {
    memory.frame(0, 0) == Some(frame)
        && !pool.is_free(frame)
        && memory.has_room(UserNo(1), 1)
        && !memory.has_room(UserNo(1), 2)
}

/// Whether two more pins take no memory, each single pin that goes leaves the page its frame, and it has none when the
/// last two go together.
fn lets_go<A: Allocator + Copy>(
    heap: &LocalHeap,
    areas: &Areas<A>,
    memory: &mut UserMemory<A>,
    pool: &mut Pool<A>,
    frame: FrameNo,
) -> bool
    requires areas { areas.now.areas ≡ two_areas }
    requires page { HasPins memory.old pool.old.holds 2 }
{
    if !pinned_in_full(heap, areas, memory, pool, 2) {
        return false;
    }
    unpin(memory, pool, 3);
    let thrice = keeps(memory, pool, frame);
    unpin(memory, pool, 2);
    let twice = keeps(memory, pool, frame);
    unpinned(areas, memory, pool, 0);
    thrice
        && twice
        && memory.has_room(UserNo(1), 2)
        && pool.is_free(frame)
        && memory.lacks_page_in(page())
}

/// Whether the page is refused pins at first, and keeps its frame then when its user's page goes.
fn keeps_frame<A: Allocator + Copy>(
    heap: &LocalHeap,
    areas: &Areas<A>,
    memory: &mut UserMemory<A>,
    pool: &mut Pool<A>,
) -> bool
    requires areas { areas.now.areas ≡ two_areas }
    requires page { HasPins memory.old pool.old.holds 0 }
{
    let Some(frame) = given(memory, pool, 0) else {
        return false;
    };
    if !is_refused(heap, areas, memory, pool) || !pinned(areas, memory, pool, 0) {
        return false;
    }
    let before = keeps(memory, pool, frame);
    before
        && taken(memory, pool, 2)
        && keeps(memory, pool, frame)
        && lets_go(heap, areas, memory, pool, frame)
}

/// Whether the memory object is added.
fn is_added<A: Allocator + Copy>(memory: &mut UserMemory<A>, pool: &mut Pool<A>) -> bool
    requires limits { memory.old.limits ≡ 2 ∷ [] }
    requires objects { memory.old.objects ≡ [] }
    requires backed { IsBacked memory.old pool.old.holds }
    ensures { result ≡ true → HasPins memory.new pool.new.holds 0 }
{
    let row = MemoryObject {
        number: 0,
        user: UserNo(1),
        va: 0x10000,
        count: 1,
        writable: true,
    };
    match memory.add(pool, row, false) {
        Ok(()) => true,
        Err(_) => false,
    }
}

/// The same with five frames, and with new areas.
fn keeps_frame_of_five<A: Allocator + Copy>(
    heap: &LocalHeap,
    in_heap: A,
    memory: &mut UserMemory<A>,
) -> bool
    requires limits { memory.old.limits ≡ 2 ∷ [] }
    requires pages { memory.old.pages ≡ [] }
    requires objects { memory.old.objects ≡ [] }
{
    let mut areas = Areas::new(in_heap);
    if !has_two(&mut areas) {
        return false;
    }
    match Pool::new(in_heap, 5) {
        Ok(mut pool) => {
            is_added(memory, &mut pool) && keeps_frame(heap, &areas, memory, &mut pool)
        }
        Err(_) => false,
    }
}

/// The same of new memory in the heap.
pub(crate) fn keeps_pinned_by_span<A: Allocator + Copy>(heap: &LocalHeap, in_heap: A) -> bool {
    match UserMemory::new(in_heap, &[2]) {
        Ok(mut memory) => keeps_frame_of_five(heap, in_heap, &mut memory),
        Err(_) => false,
    }
}
