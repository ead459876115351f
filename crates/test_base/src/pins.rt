//! The pins of access objects: they come and go, and want for memory.

use held_pins::{HeldPin, HeldPins};
use iofd_words::{AccessKind, FileNo, ObjId, Span};
use linked_list_allocator::LocalHeap;
use std::alloc::{Allocator, Global};

const FILE: FileNo = FileNo(1);

const ACCESS: ObjId = ObjId(2);

const IOAS: ObjId = ObjId(1);

/// A pin of the access object.
fn pin_of(span: Span, write: bool) -> HeldPin {
    HeldPin {
        file: FILE,
        access: ACCESS,
        ioas: IOAS,
        span,
        write,
    }
}

/// Whether the pin comes.
fn comes<A: Allocator + Copy>(held: &mut HeldPins<A>, pin: &HeldPin) -> bool {
    pin.span.is_whole_pages() && !held.is_full(pin.file, pin.access) && held.pin(*pin).is_ok()
}

/// Whether such a pin was held, of which one goes.
fn goes<A: Allocator + Copy>(held: &mut HeldPins<A>, pin: &HeldPin) -> bool {
    let was_held = held.holds(*pin);
    if was_held {
        held.unpin(*pin);
    }
    was_held
}

/// Whether some pin is held, and the span is met and its first and last page covered for just these accesses.
fn is_so<A: Allocator>(
    held: &HeldPins<A>,
    span: Span,
    some: bool,
    read: bool,
    write: bool,
) -> bool {
    held.holds_some(FILE, ACCESS) == some
        && held.meets(FILE, IOAS, span) == read
        && held.access_meets(FILE, ACCESS, span) == read
        && held.covers(FILE, ACCESS, IOAS, span.first(), AccessKind::Read) == read
        && held.covers(FILE, ACCESS, IOAS, span.last(), AccessKind::Read) == read
        && held.covers(FILE, ACCESS, IOAS, span.first(), AccessKind::Write) == write
        && held.covers(FILE, ACCESS, IOAS, span.last(), AccessKind::Write) == write
}

/// Whether an equal pin comes where another finds no memory, and what stays covered as pins go.
fn go_by_one<A: Allocator + Copy>(
    held: &mut HeldPins<A>,
    span: Span,
    part: Span,
    other: Span,
) -> bool {
    !comes(held, &pin_of(other, false))
        && is_so(held, other, true, false, false)
        && comes(held, &pin_of(span, true))
        && is_so(held, span, true, true, true)
        && goes(held, &pin_of(span, true))
        && comes(held, &pin_of(part, false))
        && is_so(held, part, true, true, true)
        && goes(held, &pin_of(span, true))
        && !goes(held, &pin_of(span, true))
        && is_so(held, part, true, true, false)
        && !goes(held, &pin_of(part, true))
        && goes(held, &pin_of(part, false))
        && is_so(held, part, false, false, false)
}

/// Whether a pin of 64 pages comes, and it and others go so. None where it finds no memory, and nothing is held then.
fn come_and_go<A: Allocator + Copy>(in_heap: A) -> Option<bool> {
    let span = Span::new(0x10000, 0x4ffff)?;
    let part = Span::new(0x4e000, 0x4ffff)?;
    let other = Span::new(0x50000, 0xfffff)?;
    let mut held = HeldPins::new(in_heap);
    if comes(&mut held, &pin_of(span, true)) {
        return Some(go_by_one(&mut held, span, part, other));
    }
    if !held.holds(pin_of(span, true)) && is_so(&held, span, false, false, false) {
        return None;
    }
    Some(false)
}

/// The same in a heap of so many bytes.
fn come_in(alloc: Global, size: usize) -> Option<bool> {
    match LocalHeap::new(alloc, size) {
        Ok(heap) => come_and_go(&heap),
        Err(_) => Some(false),
    }
}

/// Whether the pins come in the first heap that is large enough, of those that grow by 64 bytes.
pub(crate) fn come_once_there_is_memory(alloc: Global) -> bool {
    for steps in 2..256 {
        if let Some(went) = come_in(alloc, 64 * steps) {
            return went && steps > 16;
        }
    }
    false
}
