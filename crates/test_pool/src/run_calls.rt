//! Pins by accesses of the one page of a memory object: its frame stays when its user's page goes, and the account
//! counts it once.

ghost use Rattle.std.specs.Prelude.{◌≡◌, ◌+◌, ◌<◌, [], ◌∷◌, true, if◌then◌else◌};
ghost use Rattle.test_pool.specs.OnePage.{HasOnePage};
ghost use Rattle.user_memory.specs.Memory.{IsBacked};

use crate::heaps::block;
use frame_memory::Pool;
use iofd_words::{FrameNo, MemoryObject, UserNo};
use linked_list_allocator::LocalHeap;
use std::alloc::{Allocator, Global};
use user_memory::{PageRun, UserMemory};

/// A run of the object's one page.
fn page() -> PageRun
    ensures { result ≡ record { number = 0; first = 0; count = 1 } }
{
    PageRun {
        number: 0,
        first: 0,
        count: 1,
    }
}

/// The frame that the user's page gets; None where there is none, or no memory for it.
fn given<A: Allocator + Copy>(
    memory: &mut UserMemory<A>,
    pool: &mut Pool,
    pins: u64,
) -> Option<FrameNo>
    requires { HasOnePage memory.old pool.old.holds pins }
    ensures { HasOnePage memory.new pool.new.holds pins }
{
    if memory.frame_at(UserNo(1), 0x10000).is_some() || !pool.has_free() {
        return None;
    }
    match memory.map_page(pool, UserNo(1), 0x10000) {
        Ok(frame) => Some(frame),
        Err(_) => None,
    }
}

/// Takes the user's page away. Whether it was there.
fn taken<A: Allocator + Copy>(memory: &mut UserMemory<A>, pool: &mut Pool, pins: u64) -> bool
    requires { HasOnePage memory.old pool.old.holds pins }
    ensures { HasOnePage memory.new pool.new.holds pins }
{
    if memory.frame_at(UserNo(1), 0x10000).is_none() {
        return false;
    }
    memory.unmap_page(pool, UserNo(1), 0x10000);
    true
}

/// Puts one more pin on the page. Whether it has it: not where the page isn't there, the user may not have it pinned,
/// or memory is lacking.
fn pinned<A: Allocator + Copy>(memory: &mut UserMemory<A>, pool: &mut Pool, pins: u64) -> bool
    requires page { HasOnePage memory.old pool.old.holds pins }
    requires few { pins < 2 }
    ensures { HasOnePage memory.new pool.new.holds (pins + (if result then 1 else 0)) }
{
    let count = memory.new_pages_in(page());
    if memory.lacks_page_in(page()) || !memory.has_room(UserNo(1), u128::from(count)) {
        return false;
    }
    match memory.pin_by_access(pool, page()) {
        Ok(()) => true,
        Err(_) => false,
    }
}

/// The same while a block has all of the heap.
fn pinned_in_full<A: Allocator + Copy>(
    heap: &LocalHeap,
    memory: &mut UserMemory<A>,
    pool: &mut Pool,
    pins: u64,
) -> bool
    requires page { HasOnePage memory.old pool.old.holds pins }
    requires few { pins < 2 }
    ensures { HasOnePage memory.new pool.new.holds (pins + (if result then 1 else 0)) }
{
    match block(heap) {
        Ok(_block) => pinned(memory, pool, pins),
        Err(_) => false,
    }
}

/// Whether a first pin finds no memory then.
fn is_refused<A: Allocator + Copy>(
    heap: &LocalHeap,
    memory: &mut UserMemory<A>,
    pool: &mut Pool,
) -> bool
    requires { HasOnePage memory.old pool.old.holds 0 }
    ensures { result ≡ true → HasOnePage memory.new pool.new.holds 0 }
{
    match block(heap) {
        Ok(_block) => !pinned(memory, pool, 0),
        Err(_) => false,
    }
}

/// Takes a pin off the page.
fn unpin<A: Allocator + Copy>(memory: &mut UserMemory<A>, pool: &mut Pool, pins: u64)
    requires { HasOnePage memory.old pool.old.holds (pins + 1) }
    ensures { HasOnePage memory.new pool.new.holds pins }
{
    memory.unpin_by_access(pool, page());
}

/// Whether the page is pinned at the frame, and counted once.
fn keeps<A: Allocator>(memory: &UserMemory<A>, pool: &Pool, frame: FrameNo) -> bool {
    memory.frame(0, 0) == Some(frame)
        && !pool.is_free(frame)
        && memory.has_room(UserNo(1), 1)
        && !memory.has_room(UserNo(1), 2)
}

/// Whether a second pin takes no memory. When the first pin goes the page has its frame still, and none after the last.
fn lets_go<A: Allocator + Copy>(
    heap: &LocalHeap,
    memory: &mut UserMemory<A>,
    pool: &mut Pool,
    frame: FrameNo,
) -> bool
    requires { HasOnePage memory.old pool.old.holds 1 }
{
    if !pinned_in_full(heap, memory, pool, 1) {
        return false;
    }
    let twice = keeps(memory, pool, frame);
    unpin(memory, pool, 1);
    let once = keeps(memory, pool, frame);
    unpin(memory, pool, 0);
    twice
        && once
        && memory.has_room(UserNo(1), 2)
        && pool.is_free(frame)
        && memory.lacks_page_in(page())
}

/// Whether the page is refused a pin at first, and keeps its frame then when its user's page goes.
fn keeps_frame<A: Allocator + Copy>(
    heap: &LocalHeap,
    memory: &mut UserMemory<A>,
    pool: &mut Pool,
) -> bool
    requires { HasOnePage memory.old pool.old.holds 0 }
{
    let Some(frame) = given(memory, pool, 0) else {
        return false;
    };
    if !is_refused(heap, memory, pool) || !pinned(memory, pool, 0) {
        return false;
    }
    taken(memory, pool, 1) && keeps(memory, pool, frame) && lets_go(heap, memory, pool, frame)
}

/// Whether the memory object is added.
fn is_added<A: Allocator + Copy>(memory: &mut UserMemory<A>, pool: &mut Pool) -> bool
    requires limits { memory.old.limits ≡ 2 ∷ [] }
    requires objects { memory.old.objects ≡ [] }
    requires backed { IsBacked memory.old pool.old.holds }
    ensures { result ≡ true → HasOnePage memory.new pool.new.holds 0 }
{
    let row = MemoryObject {
        number: 0,
        user: UserNo(1),
        va: 0x10000,
        count: 1,
        writable: true,
    };
    match memory.add(pool, row, false) {
        Ok(()) => true,
        Err(_) => false,
    }
}

/// The same with five frames.
fn keeps_frame_of_five<A: Allocator + Copy>(
    alloc: Global,
    heap: &LocalHeap,
    memory: &mut UserMemory<A>,
) -> bool
    requires limits { memory.old.limits ≡ 2 ∷ [] }
    requires pages { memory.old.pages ≡ [] }
    requires objects { memory.old.objects ≡ [] }
{
    match Pool::new(alloc, 5) {
        Ok(mut pool) => { is_added(memory, &mut pool) && keeps_frame(heap, memory, &mut pool) }
        Err(_) => false,
    }
}

/// The same of new memory in the heap.
pub(crate) fn keeps_pinned<A: Allocator + Copy>(
    alloc: Global,
    heap: &LocalHeap,
    in_heap: A,
) -> bool {
    match UserMemory::new(in_heap, &[2]) {
        Ok(mut memory) => keeps_frame_of_five(alloc, heap, &mut memory),
        Err(_) => false,
    }
}
