//! Want of memory: a heap, of which a block takes a part.

use crate::areas::keep_beside_blocks;
use crate::ranges_memory::keep_in_heap;
use linked_list_allocator::LocalHeap;
use std::alloc::{AllocError, Global};

// All of the heap but so many bytes, which comes back when the block is dropped.
pub(crate) fn block(heap: &LocalHeap, left: usize) -> Result<Vec<u8, &LocalHeap>, AllocError> {
    Vec::with_capacity(heap, heap.free().saturating_sub(left))
}

// Whether areas and ranges keep what they have while a growth is refused.
fn keep(alloc: Global) -> bool {
    match LocalHeap::new(alloc, 1 << 15) {
        Ok(heap) => keep_beside_blocks(&heap) && keep_in_heap(&heap, alloc),
        Err(_) => false,
    }
}

#[test]
fn a_refused_growth_changes_nothing(rt: HostRuntime) {
    assert!(rt; keep(rt.alloc()));
}
