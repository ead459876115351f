//! Want of memory.

use crate::example::{EXAMPLE, altered, says};
use journal_audit::{Verdict, audit};
use linked_list_allocator::LocalHeap;
use std::alloc::Global;

// Whether the example finds no memory while a block has all of the heap.
fn is_refused(heap: &LocalHeap) -> bool {
    match Vec::<u8, &LocalHeap>::with_capacity(heap, heap.free()) {
        Ok(_block) => audit(heap, &EXAMPLE).is_err(),
        Err(_) => false,
    }
}

// Whether in a heap of 4 KiB the example is a run once a full heap has refused it, and with 65,280 frames taken, whose
// bytes it lacks and the heap couldn't have, torn.
fn takes_what_stands_there(alloc: Global) -> bool {
    match LocalHeap::new(alloc, 1 << 12) {
        Ok(heap) => {
            is_refused(&heap)
                && says(&heap, &EXAMPLE, Verdict::Run { records: 2 })
                && says(&heap, &altered(49, 0xff), Verdict::Torn { offset: 30 })
        }
        Err(_) => false,
    }
}

#[test]
fn no_number_takes_memory(rt: HostRuntime) {
    assert!(rt; takes_what_stands_there(rt.alloc()));
}
