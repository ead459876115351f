//! Pages of address spaces, counted in spans.

ghost use Rattle.std.specs.Prelude.{◌≡◌, ◌<◌, ◌≤◌, ◌+◌, ◌/◌, IsTrue, IsFalse, if◌then◌else◌, OnOk, OnErr};
ghost use Rattle.held_pins.specs.Counts.{count_in};
ghost use Rattle.held_pins.specs.Held.{count_exchanged, is_from, is_reached, page_cmp};
ghost use Rattle.held_pins.specs.declared.keys.PageKey.{PageKey};

use crate::counted_pages::CountedPages;
use crate::keys::PageKey;
use iofd_words::{FileNo, NoMemory, ObjId, PAGE_SIZE, Span};
use std::alloc::Allocator;

/// The end of the span's pages, by number: one more than its last.
pub(crate) fn end_of(span: Span) -> u64
    ensures value { result ≡ span.last / 4096 + 1 }
    ensures ordered { span.first / 4096 ≤ result }
{
    span.last() / PAGE_SIZE + 1
}

/// Counts each page of the key's object, from the key's page on and below the end, once more as the key is pinned. Its
/// only error is want of memory; it comes only where one of them isn't counted yet, and leaves each count as it was.
pub(crate) fn add_pages<A: Allocator + Copy>(
    counts: &mut CountedPages<A>,
    first: PageKey,
    end: u64,
) -> Result<(), NoMemory>
    requires ordered { first.page ≤ end }
    requires room { (key : PageKey) → IsTrue (is_from first end key) → count_in page_cmp counts.old key < 65535 }
    ensures ok { OnOk result ((key : PageKey) → count_in page_cmp counts.new key
        ≡ count_in page_cmp counts.old key + (if is_from first end key then 1 else 0)) }
    ensures full { OnErr result ((key : PageKey) × IsTrue (is_from first end key)
        × (count_in page_cmp counts.old key ≡ 0)) }
    ensures err { OnErr result ((key : PageKey)
        → count_in page_cmp counts.new key ≡ count_in page_cmp counts.old key) }
{
    for page in first.page..end {
        if counts.add(first.at(page)).is_err() {
            remove_pages(counts, first, page);
            return Err(NoMemory);
        }
    }
    Ok(())
}

/// Counts each page of the key's object, from the key's page on and below the end, once less as the key is pinned. They
/// are counted. It takes no memory.
pub(crate) fn remove_pages<A: Allocator + Copy>(
    counts: &mut CountedPages<A>,
    first: PageKey,
    end: u64,
)
    requires ordered { first.page ≤ end }
    requires counted { (key : PageKey) → IsTrue (is_from first end key) → 0 < count_in page_cmp counts.old key }
    ensures { (key : PageKey) → count_in page_cmp counts.new key + (if is_from first end key then 1 else 0)
        ≡ count_in page_cmp counts.old key }
{
    for page in first.page..end {
        counts.remove(first.at(page));
    }
}

/// Whether a page of the address space is counted, by whichever access object and whether for writes too or for reads
/// alone, at which the span has an address.
pub(crate) fn reaches<A: Allocator>(
    counts: &CountedPages<A>,
    file: FileNo,
    ioas: ObjId,
    span: Span,
) -> bool
    ensures some { IsTrue result → ((key : PageKey) × IsTrue (is_reached file ioas span key)
        × (0 < count_in page_cmp counts.now key)) }
    ensures none { IsFalse result → (key : PageKey) → IsTrue (is_reached file ioas span key)
        → count_in page_cmp counts.now key ≡ 0 }
    ensures ordered { span.first ≤ span.last }
{
    let least = PageKey::new(file, ioas, span.first(), ObjId(0), false);
    match counts.first_from(least) {
        Some(key) => key.is_reached(file, ioas, span),
        None => false,
    }
}

/// Whether a page is counted that the access object pinned, in whichever address space and whether for writes too or
/// for reads alone, at which the span has an address.
pub(crate) fn access_reaches<A: Allocator>(
    counts: &CountedPages<A>,
    file: FileNo,
    access: ObjId,
    span: Span,
) -> bool
    ensures some { IsTrue result → ((key : PageKey) × IsTrue (is_reached file access span key)
        × (0 < count_exchanged counts.now key)) }
    ensures none { IsFalse result → (key : PageKey) → IsTrue (is_reached file access span key)
        → count_exchanged counts.now key ≡ 0 }
    ensures ordered { span.first ≤ span.last }
{
    let least = PageKey::new(file, access, span.first(), ObjId(0), false);
    match counts.first_by_access(least) {
        Some(key) => key.is_reached(file, access, span),
        None => false,
    }
}
