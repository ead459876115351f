//! Which pages devices have written: marks come, are told and go, and want for memory.

use dirty_bitmap::{DirtyTables, Marks};
use iofd_words::{FileNo, ObjId, Span};
use linked_list_allocator::LocalHeap;
use std::alloc::{Allocator, Global};

const FILE: FileNo = FileNo(1);

const OTHER_FILE: FileNo = FileNo(2);

const HWPT: ObjId = ObjId(3);

const OTHER_HWPT: ObjId = ObjId(4);

const NONE: [u64; 4] = [0; 4];

/// Two pages that are marked, a span, the words of its report, and whether the second page lies outside the span.
struct Row {
    page: u64,
    second: u64,
    first: u64,
    last: u64,
    words: [u64; 4],
    is_outside: bool,
}

/// Spans that begin and end with a word and within one, of one page up to 256, and at the end of addresses; and a page
/// that no address has.
static ROWS: [Row; 7] = [
    Row {
        page: 2,
        second: 3,
        first: 0x1000,
        last: 0x2fff,
        words: [2, 0, 0, 0],
        is_outside: true,
    },
    Row {
        page: 0,
        second: 63,
        first: 0,
        last: 0x3_ffff,
        words: [1 | 1 << 63, 0, 0, 0],
        is_outside: false,
    },
    Row {
        page: 64,
        second: 127,
        first: 0x3_f000,
        last: 0x7_ffff,
        words: [2, 1, 0, 0],
        is_outside: false,
    },
    Row {
        page: 5,
        second: 260,
        first: 0x5000,
        last: 0x10_4fff,
        words: [1, 0, 0, 1 << 63],
        is_outside: false,
    },
    Row {
        page: 260,
        second: 261,
        first: 0x5000,
        last: 0x10_4fff,
        words: [0, 0, 0, 1 << 63],
        is_outside: true,
    },
    Row {
        page: 0xf_ffff_ffff_ffff,
        second: 0xf_ffff_ffff_ff00,
        first: 0xffff_ffff_fff0_0000,
        last: 0xffff_ffff_ffff_ffff,
        words: [1, 0, 0, 1 << 63],
        is_outside: false,
    },
    Row {
        page: 0xf_ffff_ffff_fffe,
        second: 0xffff_ffff_ffff_ffff,
        first: 0xffff_ffff_ffff_0000,
        last: 0xffff_ffff_ffff_ffff,
        words: [1 << 14, 0, 0, 0],
        is_outside: false,
    },
];

/// Whether the marks are told so, as often as they are asked for, until they are cleared.
fn are_told(marks: &mut Marks, span: Span, words: [u64; 4]) -> bool {
    let first = marks.report(span) == words && marks.report(span) == words;
    marks.clear(span);
    first && marks.report(span) == NONE
}

/// Whether the page is marked, and no longer once it is cleared.
fn is_marked_alone(marks: &mut Marks, page: u64) -> bool {
    let Some(span) = Span::of_length(page % (1 << 52) * 4096, 4096) else {
        return false;
    };
    let is_there = marks.report(span) == [1, 0, 0, 0];
    marks.clear(span);
    is_there && marks.report(span) == NONE
}

/// Whether the row's pages are told by its span, and the page outside stays marked.
fn holds(alloc: Global, row: &Row) -> bool {
    let Some(span) = Span::new(row.first, row.last) else {
        return false;
    };
    let mut marks = Marks::new(alloc);
    let are_set = marks.set(row.page).is_ok() && marks.set(row.second).is_ok();
    are_set
        && are_told(&mut marks, span, row.words)
        && is_marked_alone(&mut marks, row.second) == row.is_outside
}

#[test]
fn pages_are_told_by_their_bits(rt: HostRuntime) {
    for row in &ROWS {
        assert!(rt; holds(rt.alloc(), row));
    }
}

/// What is told of the first 256 pages.
fn told<A: Allocator>(dirty: &DirtyTables<A>, file: FileNo, hwpt: ObjId) -> [u64; 4] {
    match Span::new(0, 0xf_ffff) {
        Some(span) => dirty.report(file, hwpt, span),
        None => [u64::MAX; 4],
    }
}

/// Whether page 2 is marked in three page tables, two of them of one file.
fn are_marked<A: Allocator + Copy>(dirty: &mut DirtyTables<A>) -> bool {
    let are_started = dirty.start(FILE, HWPT).is_ok()
        && dirty.start(FILE, OTHER_HWPT).is_ok()
        && dirty.start(OTHER_FILE, HWPT).is_ok();
    are_started
        && dirty.mark(FILE, HWPT, 2).is_ok()
        && dirty.mark(FILE, OTHER_HWPT, 2).is_ok()
        && dirty.mark(OTHER_FILE, HWPT, 2).is_ok()
}

/// Whether just these are tracked, of the first file's two page tables and the other file's one; and whether page 2 is
/// marked in just these, and no other page.
fn are_so<A: Allocator>(dirty: &DirtyTables<A>, tracked: [bool; 3], marked: [bool; 3]) -> bool {
    let [first, second, third] = marked;
    let is_tracked = [
        dirty.is_tracked(FILE, HWPT),
        dirty.is_tracked(FILE, OTHER_HWPT),
        dirty.is_tracked(OTHER_FILE, HWPT),
    ];
    is_tracked == tracked
        && told(dirty, FILE, HWPT) == [u64::from(first) << 2, 0, 0, 0]
        && told(dirty, FILE, OTHER_HWPT) == [u64::from(second) << 2, 0, 0, 0]
        && told(dirty, OTHER_FILE, HWPT) == [u64::from(third) << 2, 0, 0, 0]
}

/// Whether each call changes its own page tables alone.
fn are_apart<A: Allocator + Copy>(dirty: &mut DirtyTables<A>, beside: Span, span: Span) -> bool {
    let all = [true; 3];
    let were_marked = are_marked(dirty) && are_so(dirty, all, all);
    dirty.clear(FILE, HWPT, beside);
    let is_beside = are_so(dirty, all, all);
    dirty.clear(FILE, HWPT, span);
    let is_cleared = are_so(dirty, all, [false, true, true]);
    let is_fresh = dirty.start(OTHER_FILE, HWPT).is_ok()
        && are_so(dirty, all, [false, true, false]);
    dirty.stop(FILE, HWPT);
    dirty.stop(OTHER_FILE, OTHER_HWPT);
    let is_stopped = dirty.mark(FILE, HWPT, 2).is_ok()
        && are_so(dirty, [false, true, true], [false, true, false]);
    dirty.stop_file(FILE);
    let is_left = are_so(dirty, [false, false, true], [false; 3]);
    were_marked && is_beside && is_cleared && is_fresh && is_stopped && is_left
}

/// The same over no tables.
fn tables_are_apart(alloc: Global) -> bool {
    let mut dirty = DirtyTables::new(alloc);
    match (Span::new(0x3000, 0xf_ffff), Span::new(0x2000, 0x2fff)) {
        (Some(beside), Some(span)) => are_apart(&mut dirty, beside, span),
        _ => false,
    }
}

#[test]
fn page_tables_are_apart(rt: HostRuntime) {
    assert!(rt; tables_are_apart(rt.alloc()));
}

/// How many pages are marked, 64 apart, until one finds no memory.
fn pages_marked<A: Allocator + Copy>(dirty: &mut DirtyTables<A>) -> u64 {
    for word in 0..64 {
        if dirty.mark(FILE, HWPT, 64 * word).is_err() {
            return word;
        }
    }
    64
}

/// Whether just the first so many of these pages are marked.
fn are_marked_up_to<A: Allocator>(dirty: &DirtyTables<A>, count: u64) -> bool {
    for word in 0..64 {
        let Some(span) = Span::of_length(64 * 4096 * word, 64 * 4096) else {
            return false;
        };
        if dirty.report(FILE, HWPT, span) != [u64::from(word < count), 0, 0, 0] {
            return false;
        }
    }
    true
}

/// Whether in a full heap, of which a page table is tracked and page 0 marked, pages are marked until one finds no
/// memory; what was there is then as it was, a page of a word that is there is marked, one of a page table that isn't
/// tracked takes nothing, and all goes.
fn are_full<A: Allocator + Copy>(dirty: &mut DirtyTables<A>) -> bool {
    let count = pages_marked(dirty);
    let is_refused = count < 64 && are_marked_up_to(dirty, count);
    let takes_none = dirty.mark(FILE, HWPT, 2).is_ok()
        && dirty.mark(OTHER_FILE, HWPT, 2).is_ok()
        && dirty.start(FILE, HWPT).is_ok()
        && are_marked_up_to(dirty, 0);
    dirty.stop_file(FILE);
    is_refused && takes_none && !dirty.is_tracked(FILE, HWPT)
}

/// The same, once a block takes what is left of the heap.
fn are_full_behind_a_block(heap: &LocalHeap) -> bool {
    let mut dirty = DirtyTables::new(heap);
    if dirty.start(FILE, HWPT).is_err() || dirty.mark(FILE, HWPT, 0).is_err() {
        return false;
    }
    match Vec::<u8, &LocalHeap>::with_capacity(heap, heap.free()) {
        Ok(_block) => are_full(&mut dirty),
        Err(_) => false,
    }
}

/// Whether pages want for memory in a full heap.
pub(crate) fn want_for_memory(alloc: Global) -> bool {
    match LocalHeap::new(alloc, 1 << 13) {
        Ok(heap) => are_full_behind_a_block(&heap),
        Err(_) => false,
    }
}

/// Clears 4,096 pages, of which just page 0 may be marked. Whether none is then.
fn is_cleared<A: Allocator + Copy>(dirty: &mut DirtyTables<A>) -> bool {
    for part in 0..16 {
        let Some(span) = Span::of_length(256 * 4096 * part, 256 * 4096) else {
            return false;
        };
        dirty.clear(FILE, HWPT, span);
    }
    are_marked_up_to(dirty, 0)
}

/// Whether a clear takes no memory, where words are marked and where none are.
fn clears_in_place(heap: &LocalHeap) -> bool {
    let mut dirty = DirtyTables::new(heap);
    if dirty.start(FILE, HWPT).is_err() || dirty.mark(FILE, HWPT, 0).is_err() {
        return false;
    }
    let used = heap.used();
    is_cleared(&mut dirty) && heap.used() <= used
}

/// The same in a heap of its own.
pub(crate) fn take_none_to_clear(alloc: Global) -> bool {
    match LocalHeap::new(alloc, 1 << 14) {
        Ok(heap) => clears_in_place(&heap),
        Err(_) => false,
    }
}

/// Whether page 2 is marked in a page table that is tracked. None where memory is wanting, and then nothing was
/// changed.
fn is_marked_at_last<A: Allocator + Copy>(dirty: &mut DirtyTables<A>) -> Option<bool> {
    if dirty.start(FILE, HWPT).is_err() {
        return if dirty.is_tracked(FILE, HWPT) {
            Some(false)
        } else {
            None
        };
    }
    let is_marked = dirty.mark(FILE, HWPT, 2).is_ok();
    let bit = u64::from(is_marked) << 2;
    if !dirty.is_tracked(FILE, HWPT) || told(dirty, FILE, HWPT) != [bit, 0, 0, 0] {
        return Some(false);
    }
    if is_marked { Some(true) } else { None }
}

/// The same in a heap of so many bytes.
fn comes_in(alloc: Global, size: usize) -> Option<bool> {
    match LocalHeap::new(alloc, size) {
        Ok(heap) => is_marked_at_last(&mut DirtyTables::new(&heap)),
        Err(_) => Some(false),
    }
}

/// Whether it comes in the first heap that is large enough, of those that grow by 64 bytes.
pub(crate) fn comes_once_there_is_memory(alloc: Global) -> bool {
    for steps in 2..256 {
        if let Some(went) = comes_in(alloc, 64 * steps) {
            return went && steps > 4;
        }
    }
    false
}
