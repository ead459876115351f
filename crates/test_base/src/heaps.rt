//! Want of memory: what takes some, in a heap.

use crate::{dirty, frames, objects, pins};
use linked_list_allocator::LocalHeap;
use std::alloc::Global;

/// Whether users' pages and objects come in it, and again behind a want of memory.
fn come_again(alloc: Global) -> bool {
    match LocalHeap::new(alloc, 1 << 13) {
        Ok(heap) => frames::give_pages(alloc, &heap, &heap) && objects::come_and_go(&heap, &heap),
        Err(_) => false,
    }
}

#[test]
fn pins_take_memory(rt: HostRuntime) {
    assert!(rt; pins::come_once_there_is_memory(rt.alloc()));
}

#[test]
fn pages_and_objects_take_memory(rt: HostRuntime) {
    assert!(rt; come_again(rt.alloc()));
}

#[test]
fn marks_take_memory(rt: HostRuntime) {
    assert!(rt;
        dirty::comes_once_there_is_memory(rt.alloc())
            && dirty::want_for_memory(rt.alloc())
            && dirty::take_none_to_clear(rt.alloc())
    );
}
