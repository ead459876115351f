//! The memory of one user, and its first page. The growths of memory objects and pins are refused in `test_server`.

use crate::heaps::block;
use frame_memory::Pool;
use iofd_words::{FrameNo, UserNo};
use linked_list_allocator::LocalHeap;
use std::alloc::{Allocator, Global};
use user_memory::UserMemory;

const USER: UserNo = UserNo(1);

const PAGE: u64 = 0x10000;

/// The frame that the user's page gets, which it hasn't yet. None where there is no memory for it.
fn mapped<A: Allocator + Copy>(memory: &mut UserMemory<A>, pool: &mut Pool) -> Option<FrameNo> {
    if memory.frame_at(USER, PAGE).is_some() || !pool.has_free() {
        return None;
    }
    memory.map_page(pool, USER, PAGE).ok()
}

/// Whether the page finds no memory while a block has all of the heap.
fn is_refused<A: Allocator + Copy>(
    heap: &LocalHeap,
    memory: &mut UserMemory<A>,
    pool: &mut Pool,
) -> bool {
    match block(heap) {
        Ok(_block) => mapped(memory, pool).is_none(),
        Err(_) => false,
    }
}

/// Whether the page is refused, and then gets the first of five frames.
fn gives_page<A: Allocator + Copy>(
    alloc: Global,
    heap: &LocalHeap,
    memory: &mut UserMemory<A>,
) -> bool {
    match Pool::new(alloc, 5) {
        Ok(mut pool) => {
            is_refused(heap, memory, &mut pool) && mapped(memory, &mut pool) == Some(FrameNo(0))
        }
        Err(_) => false,
    }
}

/// The same of new memory in the heap; None where that isn't had.
fn gives_page_in_new<A: Allocator + Copy>(
    alloc: Global,
    heap: &LocalHeap,
    in_heap: A,
) -> Option<bool> {
    match UserMemory::new(in_heap, &[3]) {
        Ok(mut memory) => Some(gives_page(alloc, heap, &mut memory)),
        Err(_) => None,
    }
}

/// Whether none is had in a full heap.
fn is_new_refused(alloc: Global, heap: &LocalHeap) -> bool {
    match block(heap) {
        Ok(_block) => gives_page_in_new(alloc, heap, heap).is_none(),
        Err(_) => false,
    }
}

/// Whether it is had then, and gives a page.
pub(crate) fn gives_pages(alloc: Global, heap: &LocalHeap) -> bool {
    is_new_refused(alloc, heap) && gives_page_in_new(alloc, heap, heap) == Some(true)
}
