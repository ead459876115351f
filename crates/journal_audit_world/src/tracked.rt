//! The page tables whose written pages are tracked, and the pages that are marked. To mark a page costs no look at
//! those that are marked already; a report looks at each mark of its page table once, and at a page of its span at the
//! cost of a logarithm.

ghost use Rattle.std.specs.Prelude.{◌≡◌, ◌==◌, ◌&&◌, ◌||◌, ◌+◌, ◌^◌, ◌<◌, ℕ, IfOk, if◌then◌else◌, not, filter};
ghost use Rattle.std.specs.List.{list_any};
ghost use Rattle.iofd_words.specs.Dirty.{has_mark, is_marked, is_tracked_as, reported_span, reported_words, tracks};
ghost use Rattle.iofd_words.specs.Dirty.{with_mark, with_tracking, without_marks, without_tracked};
ghost use Rattle.iofd_words.specs.DirtyWords.{is_page_of, is_reported};
ghost use Rattle.journal_audit_world.specs.Keys.{has_number};
ghost use Rattle.journal_audit_world.specs.Tracked.{bits, with_page, without_pages};

use crate::numbers::Numbers;
use iofd_words::{DirtyRequest, FileNo, NoMemory, ObjId, PAGE_SIZE};
use std::alloc::{Allocator, Global};
use std::marker::Model;

/// A page table that is tracked, and the numbers of the pages that are marked, the newest last.
#[derive(Drop)]
pub struct TrackedRow<A: Allocator = Global> {
    pub file: FileNo,
    pub hwpt: ObjId,
    pub marked: Vec<u64, A>,
}

impl<A: Allocator> Model for TrackedRow<A> {
    ghost use Rattle.std.specs.Prelude.{reverse};
    ghost use Rattle.iofd_words.specs.Dirty.{TrackedTable};

    ghost Value = { TrackedTable };

    ghost view = { λ row. record { file = row.file; hwpt = row.hwpt; pages = reverse row.marked.items } };
}

// Whether it is this page table's.
fn is_of<A: Allocator>(file: FileNo, hwpt: ObjId, row: &TrackedRow<A>) -> bool
    ensures { result ≡ is_tracked_as file hwpt row.now }
{
    row.file.0 == file.0 && row.hwpt.0 == hwpt.0
}

/// Whether the page table is tracked.
pub fn is_tracked<A: Allocator>(rows: &[TrackedRow<A>], file: FileNo, hwpt: ObjId) -> bool
    ensures { result ≡ tracks rows.now file hwpt }
{
    for row in rows {
        if is_of(file, hwpt, row) {
            return true;
        }
    }
    false
}

/// The page table isn't tracked any more.
pub fn stop<A: Allocator>(rows: &mut Vec<TrackedRow<A>, A>, file: FileNo, hwpt: ObjId)
    ensures { rows.new.items ≡ without_tracked file hwpt rows.old.items }
{
    rows.retain(move |row| !(row.file.0 == file.0 && row.hwpt.0 == hwpt.0));
}

/// No page table of the file is.
pub fn stop_file<A: Allocator>(rows: &mut Vec<TrackedRow<A>, A>, file: FileNo)
    ensures { rows.new.items ≡ filter (λ table. not (table.file.0 == file.0)) rows.old.items }
{
    rows.retain(move |row| !(row.file.0 == file.0));
}

/// The page table is tracked from now on, or it isn't. No page of it is marked then. Its only error is want of memory.
pub fn set<A: Allocator + Copy>(
    alloc: A,
    rows: &mut Vec<TrackedRow<A>, A>,
    file: FileNo,
    hwpt: ObjId,
    on: bool,
) -> Result<(), NoMemory>
    ensures { IfOk result (λ _. rows.new.items ≡ with_tracking file hwpt on rows.old.items) }
{
    stop(rows, file, hwpt);
    if on {
        let marked = Vec::new(alloc);
        rows.insert(0, TrackedRow { file, hwpt, marked })?;
    }
    Ok(())
}

/// The page is marked, where the page table is tracked. Its only error is want of memory.
pub fn mark<A: Allocator>(
    rows: &mut Vec<TrackedRow<A>, A>,
    file: FileNo,
    hwpt: ObjId,
    page: u64,
) -> Result<(), NoMemory>
    ensures { IfOk result (λ _. rows.new.items ≡ with_mark file hwpt page rows.old.items) }
{
    for row in rows.iter_mut() {
        mark_one(row, file, hwpt, page)?;
    }
    Ok(())
}

// The page is marked, if the row is of this page table.
fn mark_one<A: Allocator>(
    row: &mut TrackedRow<A>,
    file: FileNo,
    hwpt: ObjId,
    page: u64,
) -> Result<(), NoMemory>
    ensures { IfOk result (λ _. row.new ≡ with_page file hwpt page row.old) }
{
    if is_of(file, hwpt, row) {
        row.marked.push(page)?;
    }
    Ok(())
}

// ---- a span of pages

// Whether the span that is asked for has an address of the page.
fn is_asked(request: DirtyRequest, page: u64) -> bool
    ensures { result ≡ is_page_of (reported_span request) page }
{
    let end = u128::from(request.iova.0) + u128::from(request.length);
    let last = end.saturating_sub(1) / u128::from(PAGE_SIZE);
    request.iova.0 / PAGE_SIZE <= page && u128::from(page) <= last
}

/// The marks of the pages that are asked for go.
pub fn clear<A: Allocator>(rows: &mut Vec<TrackedRow<A>, A>, file: FileNo, request: DirtyRequest)
    ensures { rows.new.items ≡ without_marks file request.hwpt (reported_span request) rows.old.items }
{
    for row in rows.iter_mut() {
        clear_one(row, file, request);
    }
}

// The same of one row, if it is of this page table.
fn clear_one<A: Allocator>(row: &mut TrackedRow<A>, file: FileNo, request: DirtyRequest)
    ensures { row.new ≡ without_pages file request.hwpt (reported_span request) row.old }
{
    if is_of(file, request.hwpt, row) {
        row.marked.retain(move |page| !is_asked(request, *page));
    }
}

// Of these pages those that are asked for are added.
fn add_asked<A: Allocator + Copy>(
    numbers: &mut Numbers<A>,
    pages: &[u64],
    request: DirtyRequest,
) -> Result<(), NoMemory>
    ensures { IfOk result (λ _. (n : ℕ) → has_number numbers.new n ≡ (has_number numbers.old n
        || (list_any (λ page. page == n) pages.now && is_page_of (reported_span request) n))) }
{
    for page in pages {
        numbers.add_if(*page, is_asked(request, *page))?;
    }
    Ok(())
}

// Those that are marked for the page table, of the row, if it is its own.
fn add_marked<A: Allocator + Copy>(
    numbers: &mut Numbers<A>,
    file: FileNo,
    row: &TrackedRow<A>,
    request: DirtyRequest,
) -> Result<(), NoMemory>
    ensures { IfOk result (λ _. (n : ℕ) → has_number numbers.new n ≡ (has_number numbers.old n
        || (has_mark file request.hwpt n row.now && is_page_of (reported_span request) n))) }
{
    if is_of(file, request.hwpt, row) {
        add_asked(numbers, &row.marked, request)?;
    }
    Ok(())
}

// The pages that are asked for and are marked.
fn reported<A: Allocator + Copy>(
    alloc: A,
    rows: &[TrackedRow<A>],
    file: FileNo,
    request: DirtyRequest,
) -> Result<Numbers<A>, NoMemory>
    ensures { IfOk result (λ pages. (n : ℕ) → has_number pages n
        ≡ is_reported (is_marked rows.now file request.hwpt) (reported_span request) n) }
{
    let mut pages = Numbers::new(alloc);
    for row in rows {
        add_marked(&mut pages, file, row, request)?;
    }
    Ok(pages)
}

// The word of the 64 pages from this one on: bit k is set where the page k places behind it is one of these.
fn word<A: Allocator>(pages: &Numbers<A>, page: u64) -> u64
    requires { page + 64 < 2 ^ 64 }
    ensures { result ≡ bits (λ k. has_number pages.now (page + k)) 64 }
{
    let mut word: u64 = 0;
    for k in 0..64 {
        word += bit(pages, page, k);
    }
    word
}

// That bit of it.
fn bit<A: Allocator>(pages: &Numbers<A>, page: u64, k: u32) -> u64
    requires few { k < 64 }
    requires fits { page + 64 < 2 ^ 64 }
    ensures { result ≡ (if has_number pages.now (page + k) then 2 ^ k else 0) }
{
    if !pages.has(page + u64::from(k)) {
        return 0;
    }
    1 << k
}

/// The words of a report of what is asked for. Its only error is want of memory.
pub fn words<A: Allocator + Copy>(
    alloc: A,
    rows: &[TrackedRow<A>],
    file: FileNo,
    request: DirtyRequest,
) -> Result<[u64; 4], NoMemory>
    ensures { IfOk result (λ words. words ≡ reported_words rows.now file request) }
{
    let pages = reported(alloc, rows, file, request)?;
    let page = request.iova.0 / PAGE_SIZE;
    Ok([
        word(&pages, page),
        word(&pages, page + 64),
        word(&pages, page + 128),
        word(&pages, page + 192),
    ])
}
