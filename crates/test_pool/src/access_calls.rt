//! Pins by accesses of a run of an object's pages.

use crate::heaps::block;
use iofd_words::UserNo;
use linked_list_allocator::LocalHeap;
use pinned_pages::Pages;
use std::alloc::Allocator;

/// Whether two of four pages find no memory for a pin by an access while a block has all of the heap, and do then.
pub(crate) fn gives_rows<A: Allocator + Copy>(heap: &LocalHeap, in_heap: A) -> bool {
    let mut pages = Pages::new(in_heap, UserNo(1), 0x10000, 4, true);
    let refused = match block(heap) {
        Ok(_block) => pages.reserve_for_access(1, 2).is_err(),
        Err(_) => false,
    };
    refused && pages.reserve_for_access(1, 2).is_ok() && pages.new_in_run(1, 2) == 2
}
