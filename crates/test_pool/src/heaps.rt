//! A heap, of which a block takes all while a call is refused.

use crate::access_calls::gives_rows;
use crate::memory_calls::gives_pages;
use crate::run_calls::keeps_pinned;
use crate::span_calls::keeps_pinned_by_span;
use crate::table_calls::gives_room;
use linked_list_allocator::LocalHeap;
use std::alloc::{AllocError, Global};

/// All that the heap has left, which comes back when the block is dropped.
pub(crate) fn block(heap: &LocalHeap) -> Result<Vec<u8, &LocalHeap>, AllocError> {
    Vec::with_capacity(heap, heap.free())
}

/// Whether a page table, pins by accesses, a user's page and a pin of it each find memory once a full heap has refused
/// them.
fn are_refused_first(alloc: Global) -> bool {
    match LocalHeap::new(alloc, 1 << 12) {
        Ok(heap) => {
            gives_room(&heap, &heap)
                && gives_rows(&heap, &heap)
                && gives_pages(alloc, &heap)
                && keeps_pinned(alloc, &heap, &heap)
        }
        Err(_) => false,
    }
}

#[test]
fn page_tables_and_pages_take_memory(rt: HostRuntime) {
    assert!(rt; are_refused_first(rt.alloc()));
}

/// Whether the pins of two areas under a span find memory once a full heap has refused them. The frames are in it too.
fn spans_are_refused_first(alloc: Global) -> bool {
    match LocalHeap::new(alloc, 1 << 16) {
        Ok(heap) => keeps_pinned_by_span(&heap, &heap),
        Err(_) => false,
    }
}

#[test]
fn pins_under_a_span_take_memory(rt: HostRuntime) {
    assert!(rt; spans_are_refused_first(rt.alloc()));
}
