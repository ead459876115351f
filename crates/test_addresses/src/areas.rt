//! Calls one after the other with what each answers, and what no clause says: that there is memory.

use self::Answer::{Counts, Done, Gives, Is, Looks, Nothing};
use crate::heaps::block;
use crate::spans::{Ends, TOP, are};
use area_map::Areas;
use iofd_words::{Area, CallError, Cause, DeviceNo, DeviceSet, FileNo, ObjId, Phase, Rights, Span};
use linked_list_allocator::LocalHeap;
use std::alloc::{Allocator, Global};

/// A call on areas, for a span of addresses.
#[derive(Clone, Copy)]
enum Call {
    /// Adds an area of the span, with this memory object.
    Add(u64),
    /// The memory object at the span's first address.
    At,
    /// The memory object of the area of just this span.
    Exact,
    /// Whether some area meets the span, whether the span cuts one, and whether it is covered.
    Look,
    /// The areas in the span leave, and owe a flush to these devices.
    Leave(&'static [u16]),
    /// A device pays, whatever the span.
    Pay(u16),
    Owes,
    SetTries(u8),
    MostTries,
    /// How many areas there are, whatever the span.
    Count,
    /// Takes away the areas in the span.
    Remove,
    /// The least address from the span's first on from which so many are free.
    Free(u64),
    /// Whether these are all areas' spans, by rising start, whatever the span.
    List(Ends),
    /// Whether a list of all areas' spans finds no memory in a small heap.
    ListInSmallHeap,
}

/// What a call answers.
#[derive(Clone, Copy, PartialEq, Eq)]
enum Answer {
    Done,
    Is(bool),
    Gives(u64),
    Nothing,
    Refused(Cause),
    Looks(bool, bool, bool),
    Counts(usize),
    NoMemory,
}

const OVERLAP: Answer = Answer::Refused(Cause::Overlap);

// Adds an area of the span, with this memory object.
fn added<A: Allocator + Copy>(areas: &mut Areas<A>, span: Span, memory: u64) -> Answer {
    let area = Area {
        file: FileNo(1),
        ioas: ObjId(1),
        span,
        memory,
        rights: Rights(3),
        phase: Phase::Live,
    };
    match areas.insert(area) {
        Ok(()) => Done,
        Err(CallError::Refused(refusal)) => Answer::Refused(refusal.cause),
        Err(CallError::Memory(_)) => Answer::NoMemory,
    }
}

fn found(area: Option<&Area>) -> Answer {
    area.map_or(Nothing, |area| Gives(area.memory))
}

fn looked(areas: &Areas, span: Span) -> Answer {
    Looks(
        areas.meets(span),
        areas.cuts(span),
        areas.covered(span).is_ok(),
    )
}

fn left(areas: &mut Areas, span: Span, devices: &[u16]) -> Answer {
    let mut owed = DeviceSet::new();
    for device in devices {
        if *device >= 1 && *device <= 256 {
            owed.insert(DeviceNo(*device));
        }
    }
    areas.mark_leaving(span, &owed);
    Done
}

fn owes(area: &Area) -> bool {
    match &area.phase {
        Phase::Live => false,
        Phase::Leaving { owed, .. } => !owed.is_empty(),
    }
}

fn listed(areas: &Areas, alloc: Global, ends: Ends) -> Answer {
    match areas.spans(alloc) {
        Ok(spans) => Is(are(&spans, ends)),
        Err(_) => Answer::NoMemory,
    }
}

fn listed_in_small_heap(areas: &Areas, alloc: Global) -> Answer {
    match LocalHeap::new(alloc, 16) {
        Ok(heap) => Is(areas.spans(&heap).is_err()),
        Err(_) => Answer::NoMemory,
    }
}

// The least address from this one on from which so many are free.
fn free(areas: &Areas, start: u64, count: u64) -> Answer {
    if count == 0 {
        return Nothing;
    }
    match areas.free_from(start, count) {
        Some(at) => Gives(at),
        None => Nothing,
    }
}

fn asked(areas: &mut Areas, alloc: Global, span: Span, call: Call) -> Answer {
    match call {
        Call::Add(memory) => return added(areas, span, memory),
        Call::At => return found(areas.at(span.first())),
        Call::Exact => return found(areas.exact(span)),
        Call::Look => return looked(areas, span),
        Call::Leave(devices) => return left(areas, span, devices),
        Call::Owes => return Is(areas.within(span).any(owes)),
        Call::MostTries => return Gives(u64::from(areas.most_tries(span))),
        Call::Count => return Counts(areas.len()),
        Call::Free(count) => return free(areas, span.first(), count),
        Call::List(ends) => return listed(areas, alloc, ends),
        Call::ListInSmallHeap => return listed_in_small_heap(areas, alloc),
        Call::Pay(device) => areas.pay(DeviceNo(device)),
        Call::SetTries(tries) => areas.set_tries(span, tries),
        Call::Remove => areas.remove(span),
    }
    Done
}

/// A call for the span from a first to a last address, and what it answers.
type Row = (u64, u64, Call, Answer);

/// The first row that isn't answered so.
fn first_wrong(areas: &mut Areas, alloc: Global, rows: &[Row]) -> Option<usize> {
    for (place, (first, last, call, answer)) in rows.iter().enumerate() {
        match Span::new(*first, *last) {
            Some(span) if asked(areas, alloc, span, *call) == *answer => {}
            _ => return Some(place),
        }
    }
    None
}

const SPANS: Ends = &[
    (0x1000, 0x1fff),
    (0x2000, 0x2fff),
    (0x5000, 0x7fff),
    (TOP - 0xfff, TOP),
];

// Two areas that touch, one behind a gap, and one that ends at the last address, added in no order.
const FOUR: &[Row] = &[
    (0, TOP, Call::List(&[]), Is(true)),
    (0x2000, 0x2fff, Call::Add(12), Done),
    (TOP - 0xfff, TOP, Call::Add(14), Done),
    (0x1000, 0x1fff, Call::Add(11), Done),
    (0x5000, 0x7fff, Call::Add(13), Done),
    (0, TOP, Call::List(SPANS), Is(true)),
    (0, TOP, Call::ListInSmallHeap, Is(true)),
];

// Areas are found and counted, met, cut and covered.
const FOUND: &[Row] = &[
    (0xfff, 0xfff, Call::At, Nothing),
    (0x1000, 0x1000, Call::At, Gives(11)),
    (0x1fff, 0x1fff, Call::At, Gives(11)),
    (0x2000, 0x2000, Call::At, Gives(12)),
    (0x3000, 0x3000, Call::At, Nothing),
    (0x5000, 0x7fff, Call::Exact, Gives(13)),
    (0x5000, 0x7ffe, Call::Exact, Nothing),
    (0x1000, 0x2fff, Call::Exact, Nothing),
    (0, TOP, Call::Count, Counts(4)),
    (0, 0xfff, Call::Look, Looks(false, false, false)),
    (0, 0x1000, Call::Look, Looks(true, true, false)),
    (0x1000, 0x2fff, Call::Look, Looks(true, false, true)),
    (0x1800, 0x27ff, Call::Look, Looks(true, true, true)),
    (0x1000, 0x3000, Call::Look, Looks(true, false, false)),
];

// An area that meets another is refused.
const REFUSED: &[Row] = &[
    // an area that is leaving is in the way, too
    (0x5000, 0x7fff, Call::Leave(&[]), Done),
    (0, 0x1000, Call::Add(15), OVERLAP),
    (0x2fff, 0x3fff, Call::Add(15), OVERLAP),
    (0x6000, 0x6fff, Call::Add(15), OVERLAP),
    (0, TOP, Call::List(SPANS), Is(true)),
    (0x3000, 0x4fff, Call::Add(15), Done),
    (0x4fff, 0x4fff, Call::At, Gives(15)),
];

// Leaving areas owe until all have paid.
const LEAVING: &[Row] = &[
    (0x1000, 0x2fff, Call::Leave(&[1, 256]), Done),
    // a second leaving changes nothing
    (0x1000, 0x2fff, Call::Leave(&[]), Done),
    (0x5000, 0x7fff, Call::Owes, Is(false)),
    (0, 0, Call::Pay(1), Done),
    (0x1000, 0x2fff, Call::Owes, Is(true)),
    (0, 0, Call::Pay(256), Done),
    (0x1000, 0x2fff, Call::Owes, Is(false)),
    (0x1000, 0x2fff, Call::MostTries, Gives(0)),
    (0x2000, 0x7fff, Call::SetTries(7), Done),
    (0x1000, 0x2fff, Call::MostTries, Gives(7)),
    (0x1000, 0x1fff, Call::MostTries, Gives(0)),
    (0x1000, 0x2fff, Call::Remove, Done),
    (
        0,
        TOP,
        Call::List(&[(0x5000, 0x7fff), (TOP - 0xfff, TOP)]),
        Is(true),
    ),
];

// At the two ends of all addresses.
const ENDS: &[Row] = &[
    (0, 0xfff, Call::Add(10), Done),
    (0, 0, Call::At, Gives(10)),
    (TOP, TOP, Call::At, Gives(14)),
    (0, 0x2fff, Call::Look, Looks(true, false, true)),
    (TOP, TOP, Call::Look, Looks(true, true, true)),
    (0, TOP, Call::Count, Counts(5)),
    (0, TOP, Call::Remove, Done),
    (0, TOP, Call::List(&[]), Is(true)),
];

// So many addresses are free before, between and behind areas, or nowhere.
const FREE: &[Row] = &[
    (0, 0, Call::Free(0x1000), Gives(0)),
    (0, 0, Call::Free(0x1001), Gives(0x3000)),
    (1, 1, Call::Free(0x1000), Gives(0x3000)),
    (0x3001, 0x3001, Call::Free(0x1fff), Gives(0x3001)),
    (0x3001, 0x3001, Call::Free(0x2000), Gives(0x8000)),
    (0x5000, 0x7fff, Call::Leave(&[7]), Done),
    (0, 0, Call::Free(0x2001), Gives(0x8000)),
    (0, 0, Call::Free(TOP - 0x8fff), Gives(0x8000)),
    (0, 0, Call::Free(TOP - 0x8ffe), Nothing),
    (TOP, TOP, Call::Free(1), Nothing),
    (TOP - 0xfff, TOP, Call::Remove, Done),
    (TOP, TOP, Call::Free(1), Gives(TOP)),
    (TOP, TOP, Call::Free(2), Nothing),
];

static TABLES: [&[Row]; 5] = [FOUND, REFUSED, LEAVING, ENDS, FREE];

// Whether each row is answered so, once the four areas are there.
fn are_right(alloc: Global, rows: &[Row]) -> bool {
    let mut areas = Areas::new(alloc);
    first_wrong(&mut areas, alloc, FOUR).is_none() && first_wrong(&mut areas, alloc, rows).is_none()
}

// Whether each row of the table at this place is answered so.
fn is_right(alloc: Global, place: usize) -> bool {
    match TABLES.get(place) {
        Some(rows) => are_right(alloc, *rows),
        None => false,
    }
}

#[test]
fn each_call_answers_as_its_row_says(rt: HostRuntime) {
    for place in 0..TABLES.len() {
        assert!(rt; is_right(rt.alloc(), place), "table {place}");
    }
}

// Adds every second page until memory is refused: at which page.
fn page_refused<A: Allocator + Copy>(areas: &mut Areas<A>) -> Option<Span> {
    for number in 0..1000u64 {
        let page = Span::of_length(0x2000 * number, 0x1000)?;
        if added(areas, page, 1) == Answer::NoMemory {
            return Some(page);
        }
    }
    None
}

// The same while a block leaves so much of the heap.
fn page_refused_beside<A: Allocator + Copy>(
    areas: &mut Areas<A>,
    heap: &LocalHeap,
    left: usize,
) -> Option<Span> {
    match block(heap, left) {
        Ok(_block) => page_refused(areas),
        Err(_) => None,
    }
}

// Whether the refused page changed nothing, and is added once there is memory.
fn is_added_later<A: Allocator + Copy>(areas: &mut Areas<A>, page: Span) -> bool {
    areas.len() as u64 == page.first() / 0x2000
        && areas.reserve().is_ok()
        && added(areas, page, 1) == Done
}

// Whether memory is refused where a block leaves so much, and then nothing has changed.
fn keep<A: Allocator + Copy>(areas: &mut Areas<A>, heap: &LocalHeap, left: usize) -> bool {
    match page_refused_beside(areas, heap, left) {
        Some(page) => is_added_later(areas, page),
        None => false,
    }
}

// The same of no areas.
fn keeps_its_areas<A: Allocator + Copy>(heap: &LocalHeap, in_heap: A, left: usize) -> bool {
    let mut areas = Areas::new(in_heap);
    keep(&mut areas, heap, left)
}

// Whether that holds beside larger and larger blocks: so the map is refused each of its growths in turn.
pub(crate) fn keep_beside_blocks(heap: &LocalHeap) -> bool {
    for part in 0..127usize {
        if !keeps_its_areas(heap, heap, 27_768 - 216 * part) {
            return false;
        }
    }
    true
}
