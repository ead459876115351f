//! Room for a page table. Whatever else is asked of page tables takes no memory.

use crate::heaps::block;
use linked_list_allocator::LocalHeap;
use page_table_set::PageTables;
use std::alloc::Allocator;

/// Whether there is no memory for a page table while a block has all of the heap.
fn is_refused<A: Allocator>(heap: &LocalHeap, tables: &mut PageTables<A>) -> bool {
    match block(heap) {
        Ok(_block) => tables.reserve().is_err(),
        Err(_) => false,
    }
}

/// Whether a page table's room in the heap is refused, and then had.
pub(crate) fn gives_room<A: Allocator>(heap: &LocalHeap, in_heap: A) -> bool {
    let mut tables = PageTables::new(in_heap);
    is_refused(heap, &mut tables) && tables.reserve().is_ok()
}
