//! Sets of ranges, and what is allowed or reserved, where memory is wanting.

use crate::heaps::block;
use crate::ranges::unreserved;
use crate::spans::{TOP, are};
use iofd_words::{DeviceNo, NoMemory, Span};
use iova_ranges::{Allowed, RangeSet, Reserved};
use linked_list_allocator::LocalHeap;
use std::alloc::{Allocator, Global};

// The bytes with which a set of spans is refused its first, second, third or fourth growth.
const LEFT: [usize; 4] = [16, 112, 224, 512];

// Adds the page, or takes it away.
fn changed<A: Allocator + Copy>(
    set: &mut RangeSet<A>,
    page: Span,
    adds: bool,
) -> Result<(), NoMemory> {
    if adds {
        set.add(page)
    } else {
        set.remove(page)
    }
}

// The first of the pages that is refused.
fn page_refused<A: Allocator + Copy>(set: &mut RangeSet<A>, adds: bool) -> Option<Span> {
    for number in 0..100u64 {
        let page = Span::of_length(0x2000 * number, 0x1000)?;
        if changed(set, page, adds).is_err() {
            return Some(page);
        }
    }
    None
}

// The same while a block leaves so much of the heap.
fn page_refused_beside<A: Allocator + Copy>(
    set: &mut RangeSet<A>,
    heap: &LocalHeap,
    left: usize,
    adds: bool,
) -> Option<Span> {
    match block(heap, left) {
        Ok(_block) => page_refused(set, adds),
        Err(_) => None,
    }
}

// Whether the refused page changed nothing, and is added or goes once there is memory.
fn is_changed_later<A: Allocator + Copy>(set: &mut RangeSet<A>, page: Span, adds: bool) -> bool {
    set.spans().len() as u64 == page.first() / 0x2000
        && set.covers(page) != adds
        && set.reserve().is_ok()
        && changed(set, page, adds).is_ok()
        && set.covers(page) == adds
}

// The same of a set of these ranges, to which pages are added or from which they go.
fn keeps_its_ranges<A: Allocator + Copy>(
    heap: &LocalHeap,
    in_heap: A,
    ranges: &[Span],
    left: usize,
    adds: bool,
) -> bool {
    let Ok(mut set) = RangeSet::of(in_heap, ranges) else {
        return false;
    };
    match page_refused_beside(&mut set, heap, left, adds) {
        Some(page) => is_changed_later(&mut set, page, adds),
        None => false,
    }
}

// Whether a set keeps its ranges beside each of the blocks.
fn keeps_beside_blocks(heap: &LocalHeap) -> bool {
    for left in LEFT {
        if !keeps_its_ranges(heap, heap, &[], left, true) {
            return false;
        }
    }
    true
}

// Whether memory for a set of these ranges is refused beside a block.
fn is_set_refused(heap: &LocalHeap, ranges: &[Span]) -> bool {
    match block(heap, 16) {
        Ok(_block) => RangeSet::of(heap, ranges).is_err(),
        Err(_) => false,
    }
}

// Whether the ranges are refused while all memory is taken.
fn are_refused<A: Allocator + Copy>(
    allowed: &mut Allowed<A>,
    heap: &LocalHeap,
    ranges: &[Span],
) -> bool {
    match block(heap, 0) {
        Ok(_block) => allowed.replace(ranges).is_err(),
        Err(_) => false,
    }
}

// Whether the low range stays while memory for the high one is refused, and gives way once there is some.
fn keeps_ranges<A: Allocator + Copy>(
    allowed: &mut Allowed<A>,
    heap: &LocalHeap,
    low: Span,
    high: Span,
) -> bool {
    allowed.replace(&[low]).is_ok()
        && are_refused(allowed, heap, &[high])
        && allowed.allows(low)
        && allowed.replace(&[high]).is_ok()
        && allowed.allows(high)
}

fn keeps_what_is_allowed<A: Allocator + Copy>(
    heap: &LocalHeap,
    in_heap: A,
    low: Span,
    high: Span,
) -> bool {
    let mut allowed = Allowed::new(in_heap);
    keeps_ranges(&mut allowed, heap, low, high)
}

// Whether the spans are refused while all memory is taken.
fn is_refused<A: Allocator + Copy>(
    reserved: &mut Reserved<A>,
    heap: &LocalHeap,
    spans: &[Span],
) -> bool {
    match block(heap, 0) {
        Ok(_block) => reserved.add(DeviceNo(2), spans).is_err(),
        Err(_) => false,
    }
}

// Whether the one span is cut out of a set.
fn is_cut_out<A: Allocator + Copy>(reserved: &Reserved<A>, alloc: Global) -> bool {
    match unreserved(alloc, reserved) {
        Ok(rest) => are(rest.spans(), &[(0, 0xfff), (0x2000, 0x7f_ffff_ffff)]),
        Err(_) => false,
    }
}

// The same while all memory is taken where the spans stand: a set is cut in its own.
fn is_cut_out_elsewhere<A: Allocator + Copy>(
    reserved: &Reserved<A>,
    heap: &LocalHeap,
    alloc: Global,
) -> bool {
    match block(heap, 0) {
        Ok(_block) => is_cut_out(reserved, alloc),
        Err(_) => false,
    }
}

// Whether the one span stays while memory for many is refused, and they come behind it once there is some.
fn keeps_spans<A: Allocator + Copy>(
    reserved: &mut Reserved<A>,
    heap: &LocalHeap,
    many: &[Span],
) -> bool {
    is_refused(reserved, heap, many)
        && reserved.rows().len() == 1
        && reserved.add(DeviceNo(2), many).is_ok()
        && reserved.rows().len() == 65
}

fn keeps_what_is_reserved<A: Allocator + Copy>(
    heap: &LocalHeap,
    in_heap: A,
    alloc: Global,
    (one, many): (Span, &[Span]),
) -> bool {
    let mut reserved = Reserved::new(in_heap);
    reserved.add(DeviceNo(1), &[one]).is_ok()
        && is_cut_out_elsewhere(&reserved, heap, alloc)
        && keeps_spans(&mut reserved, heap, many)
}

// Whether sets, and what is allowed or reserved, are kept so.
pub(crate) fn keep_in_heap(heap: &LocalHeap, alloc: Global) -> bool {
    let (Some(whole), Some(low), Some(high)) = (
        Span::new(0, TOP),
        Span::new(0x1000, 0x1fff),
        Span::new(0x8000, 0x8fff),
    ) else {
        return false;
    };
    keeps_beside_blocks(heap)
        && keeps_its_ranges(heap, heap, &[whole], 224, false)
        && is_set_refused(heap, &[whole])
        && keeps_what_is_allowed(heap, heap, low, high)
        && keeps_what_is_reserved(heap, heap, alloc, (low, &[high; 64]))
}
