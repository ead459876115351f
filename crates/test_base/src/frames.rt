//! A pool's frames, held and written, and users' pages in it that want for memory.

use frame_memory::{Pool, UserMap};
use iofd_words::{CallError, FrameNo, NoMemory, UserNo};
use linked_list_allocator::LocalHeap;
use std::alloc::{Allocator, Global};

/// Whether the pool has the frame, on which one hold more stands from now on.
fn is_held(pool: &mut Pool, frame: FrameNo) -> bool {
    if !pool.has(frame) || pool.holds(frame) == u128::MAX {
        return false;
    }
    pool.hold(frame);
    true
}

/// Whether a hold stood on the frame, which is taken off.
fn is_released(pool: &mut Pool, frame: FrameNo) -> bool {
    if !pool.has(frame) || pool.holds(frame) == 0 {
        return false;
    }
    pool.release(frame);
    true
}

/// Whether a frame is free until a hold stands on it, and again once none is left of two.
fn is_free_without_holds(pool: &mut Pool, frame: FrameNo) -> bool {
    let was_free = pool.is_free(frame);
    let were_held = is_held(pool, frame) && is_held(pool, frame);
    let was_released = is_released(pool, frame) && !pool.is_free(frame);
    was_free && were_held && was_released && is_released(pool, frame) && pool.is_free(frame)
}

/// Whether bytes stand where they were put, a word's least first.
fn keeps_bytes(pool: &mut Pool, frame: FrameNo) -> bool {
    if !pool.has(frame) {
        return false;
    }
    pool.write(frame, 4093, &[1, 2, 3]);
    pool.set_word(frame, 0, 0x1122_3344_5566_7788);
    pool.read(frame, 4092, 4) == [0, 1, 2, 3].as_slice()
        && pool.word(frame, 511) == 0x0302_0100_0000_0000
        && pool.read(frame, 0, 4) == [0x88, 0x77, 0x66, 0x55].as_slice()
}

/// Maps the first user's pages from address 0 on, as long as they get the frames from 0 on. How many.
fn pages_mapped<A: Allocator + Copy>(map: &mut UserMap<A>, pool: &mut Pool) -> u32 {
    for page in 0..64 {
        if map.map(pool, UserNo(1), 4096 * u64::from(page)) != Ok(FrameNo(page)) {
            return page;
        }
    }
    64
}

/// How many of the first user's pages come from address 0 on while a block leaves so much memory, until one finds none.
fn came<A: Allocator + Copy>(
    heap: &LocalHeap,
    map: &mut UserMap<A>,
    pool: &mut Pool,
    left: usize,
) -> Option<u32> {
    let size = heap.free().saturating_sub(left);
    let Ok(_block) = Vec::<u8, &LocalHeap>::with_capacity(heap, size) else {
        return None;
    };
    let count = pages_mapped(map, pool);
    match map.map(pool, UserNo(1), 4096 * u64::from(count)) {
        Err(CallError::Memory(NoMemory)) => Some(count),
        _ => None,
    }
}

/// Whether a page finds no memory where none is left, nor behind a few others; and then where there is some again.
fn grows_again<A: Allocator + Copy>(
    heap: &LocalHeap,
    map: &mut UserMap<A>,
    pool: &mut Pool,
) -> bool {
    let none = came(heap, map, pool, 0);
    match came(heap, map, pool, 1 << 10) {
        Some(few) => {
            let address = 4096 * u64::from(few);
            none == Some(0) && few > 0 && map.map(pool, UserNo(1), address) == Ok(FrameNo(few))
        }
        None => false,
    }
}

/// Whether the last frame of a pool of 64 is held and written so, and a map over it grows again.
pub(crate) fn give_pages<A: Allocator + Copy>(alloc: Global, heap: &LocalHeap, in_heap: A) -> bool {
    let mut map = UserMap::new(in_heap);
    match Pool::new(alloc, 64) {
        Ok(mut pool) => {
            is_free_without_holds(&mut pool, FrameNo(63))
                && keeps_bytes(&mut pool, FrameNo(63))
                && grows_again(heap, &mut map, &mut pool)
        }
        Err(_) => false,
    }
}
