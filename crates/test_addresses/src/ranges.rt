//! Sets of ranges, fits, and what is allowed or reserved: calls one after the other with what each answers, and a long
//! list.

use self::Answer::{At, Barred, Both, Is, Nothing};
use self::Call::{
    Add, Allows, Are, Fit, Keeps, Leaves, Look, Meets, Release, Remove, Replace, Reserve,
};
use crate::spans::{Ends, TOP, are, spans};
use iofd_words::{DeviceNo, NoMemory, Span};
use iova_ranges::{Allowed, RangeSet, Reserved, laws, starts_rise};
use std::alloc::{Allocator, Global};

/// What the calls are made on.
#[derive(Drop)]
struct Sets {
    set: RangeSet,
    allowed: Allowed,
    reserved: Reserved,
}

/// A call with a span.
#[derive(Clone, Copy)]
enum Call {
    Add,
    Remove,
    /// Whether the set holds the span's first number, and whether it holds all.
    Look,
    /// Whether these are the set's ranges.
    Are(Ends),
    /// Where a length fits first in the set, beside these areas.
    Fit(u64, Ends),
    /// These ranges are allowed, in the place of those before.
    Replace(Ends),
    /// Whether all of the span is allowed.
    Allows,
    /// Whether the first ranges are kept, and just the second ones are allowed.
    Keeps(Ends, Ends),
    /// A device reserves the span.
    Reserve(u16),
    /// A device goes, with what it reserves.
    Release(u16),
    /// Whether the span's first number is reserved, and whether some number is.
    Meets,
    /// Whether so many spans are reserved, and just these of the numbers below 2^39 aren't.
    Leaves(usize, Ends),
}

/// What a call answers.
#[derive(Clone, Copy, PartialEq, Eq)]
enum Answer {
    Is(bool),
    Both(bool, bool),
    At(u64),
    Nothing,
    /// The call's terms aren't met, so it wasn't made.
    Barred,
}

// Where a length fits first beside the areas, which have to stand by rising start.
fn fit(set: &RangeSet, length: u64, areas: &[Span]) -> Answer {
    if !starts_rise(areas) {
        return Answer::Barred;
    }
    match set.first_fit(length, areas) {
        Some(iova) => Answer::At(iova.0),
        None => Answer::Nothing,
    }
}

fn fit_beside(set: &RangeSet, alloc: Global, length: u64, areas: Ends) -> Answer {
    match spans(alloc, areas) {
        Some(areas) => fit(set, length, &areas),
        None => Answer::Barred,
    }
}

fn replaced(allowed: &mut Allowed, alloc: Global, ends: Ends) -> Answer {
    match spans(alloc, ends) {
        Some(ranges) => Answer::Is(allowed.replace(&ranges).is_ok()),
        None => Answer::Barred,
    }
}

fn kept(allowed: &Allowed, alloc: Global, ranges: Ends, all: Ends) -> Answer {
    match allowed.to_set(alloc) {
        Ok(set) => Answer::Both(
            are(allowed.spans(), ranges) && allowed.is_bounded() != ranges.is_empty(),
            are(set.spans(), all),
        ),
        Err(_) => Answer::Nothing,
    }
}

// The numbers below 2^39 that aren't reserved.
pub(crate) fn unreserved<A: Allocator>(
    alloc: Global,
    reserved: &Reserved<A>,
) -> Result<RangeSet, NoMemory> {
    let whole = match Span::of_length(0, 1 << 39) {
        Some(span) => RangeSet::of(alloc, &[span])?,
        None => RangeSet::new(alloc),
    };
    reserved.outside(whole)
}

fn rest(reserved: &Reserved, alloc: Global, count: usize, ends: Ends) -> Answer {
    match unreserved(alloc, reserved) {
        Ok(set) => Answer::Both(reserved.rows().len() == count, are(set.spans(), ends)),
        Err(_) => Answer::Nothing,
    }
}

fn asked(sets: &mut Sets, alloc: Global, span: Span, call: Call) -> Answer {
    let first = span.first();
    match call {
        Call::Add => Answer::Is(sets.set.add(span).is_ok()),
        Call::Remove => Answer::Is(sets.set.remove(span).is_ok()),
        Call::Look => Answer::Both(sets.set.holds(first), sets.set.covers(span)),
        Call::Are(ends) => {
            Answer::Is(are(sets.set.spans(), ends) && sets.set.is_empty() == ends.is_empty())
        }
        Call::Fit(length, areas) => fit_beside(&sets.set, alloc, length, areas),
        Call::Replace(ends) => replaced(&mut sets.allowed, alloc, ends),
        Call::Allows => Answer::Is(sets.allowed.allows(span)),
        Call::Keeps(ranges, all) => kept(&sets.allowed, alloc, ranges, all),
        Call::Reserve(owner) => Answer::Is(sets.reserved.add(DeviceNo(owner), &[span]).is_ok()),
        Call::Release(owner) => {
            sets.reserved.remove(DeviceNo(owner));
            Answer::Is(true)
        }
        Call::Meets => Answer::Both(sets.reserved.holds(first), sets.reserved.meets(span)),
        Call::Leaves(count, ends) => rest(&sets.reserved, alloc, count, ends),
    }
}

/// A call with the span from a first to a last number, and what it answers.
type Row = (u64, u64, Call, Answer);

/// The first row that isn't answered so.
fn first_wrong(sets: &mut Sets, alloc: Global, rows: &[Row]) -> Option<usize> {
    for (place, (first, last, call, answer)) in rows.iter().enumerate() {
        match Span::new(*first, *last) {
            Some(span) if asked(sets, alloc, span, *call) == *answer => {}
            _ => return Some(place),
        }
    }
    None
}

const YES: Answer = Is(true);

const BOTH: Answer = Both(true, true);

const THREE: Ends = &[(0x2000, 0x2fff), (0x4000, 0x4fff), (TOP - 0xfff, TOP)];

// Spans that meet or adjoin become one, and numbers are taken away.
const ADDED: &[Row] = &[
    (0, 0, Are(&[]), YES),
    (0x2000, 0x2fff, Add, YES),
    (TOP - 0xfff, TOP, Add, YES),
    (0x4000, 0x4fff, Add, YES),
    (0, 0, Are(THREE), YES),
    (0x3000, 0x3fff, Add, YES),
    (0, 0, Are(&[(0x2000, 0x4fff), (TOP - 0xfff, TOP)]), YES),
    (0x1fff, 0x2000, Look, Both(false, false)),
    (0x2000, 0x4fff, Look, BOTH),
    (0x4fff, 0x5000, Look, Both(true, false)),
    (TOP, TOP, Look, BOTH),
    (0, TOP, Add, YES),
    (0, 0, Are(&[(0, TOP)]), YES),
    (0xfee0_0000, 0xfeef_ffff, Remove, YES),
    (0, 0, Remove, YES),
    (TOP, TOP, Remove, YES),
    (0, 0, Are(&[(1, 0xfedf_ffff), (0xfef0_0000, TOP - 1)]), YES),
    (0xfedf_0000, 0xfef0_0fff, Remove, YES),
    (0, 0, Are(&[(1, 0xfede_ffff), (0xfef0_1000, TOP - 1)]), YES),
    (0, TOP, Remove, YES),
    (0, 0, Are(&[]), YES),
];

const LOW: Ends = &[(0x1000, 0x3000), (0x2000, 0x2fff)];

const MOST: Ends = &[(0x3fff, 0x3fff), (0x5000, 0x6fff)];

// The least fit is found.
const FITS: &[Row] = &[
    (0x2001, 0x6fff, Add, YES),
    (TOP - 0xfff, TOP, Add, YES),
    (0, 0, Fit(0, &[]), Nothing),
    (0, 0, Fit(1, &[]), At(0x3000)),
    (0, 0, Fit(0x4000, &[]), At(0x3000)),
    (0, 0, Fit(0x4001, &[]), Nothing),
    (0, 0, Fit(0x3000, LOW), At(0x4000)),
    (0, 0, Fit(0x3001, LOW), Nothing),
    (0, 0, Fit(0xfff, MOST), At(0x3000)),
    (0, 0, Fit(0x1000, MOST), At(0x4000)),
    (0, 0, Fit(0x1000, &[(0, 0x6000)]), At(TOP - 0xfff)),
    // areas that don't stand by rising start
    (0, 0, Fit(1, &[(1, 1), (3, 3), (2, 9)]), Barred),
    // at the very top
    (0, TOP, Add, YES),
    (0, 0, Fit(TOP, &[]), At(0)),
    (0, 0, Fit(0x1000, &[(0, TOP - 0x1000)]), At(TOP - 0xfff)),
    (0, 0, Fit(0x1001, &[(0, TOP - 0x1000)]), Nothing),
];

const ONE: Ends = &[(0x8000, 0x8fff)];

// The last ranges bound addresses.
const BOUNDED: &[Row] = &[
    (0, 0, Keeps(&[], &[(0, TOP)]), BOTH),
    (0, TOP, Allows, YES),
    (0, 0, Replace(&[(0x5000, 0x5fff), (0x4000, 0x4fff)]), YES),
    (0, 0, Keeps(&[(0x4000, 0x5fff)], &[(0x4000, 0x5fff)]), BOTH),
    (0x4fff, 0x5000, Allows, YES),
    (0x5fff, 0x6000, Allows, Is(false)),
    (0, 0, Replace(ONE), YES),
    (0, 0, Keeps(ONE, ONE), BOTH),
    (0, 0, Replace(&[]), YES),
    (0, 0, Keeps(&[], &[(0, TOP)]), BOTH),
];

const HIGH: (u64, u64) = (0xfef0_0000, 0x7f_ffff_ffff);

// Spans are reserved while their device is there: two devices share a page.
const KEPT: &[Row] = &[
    (0, TOP, Meets, Both(false, false)),
    (0x4000, 0x4fff, Reserve(1), YES),
    (0xfee0_0000, 0xfeef_ffff, Reserve(1), YES),
    (0x4000, 0x5fff, Reserve(2), YES),
    (0, 0x3fff, Meets, Both(false, false)),
    (0x3fff, 0x4000, Meets, Both(false, true)),
    (0x5fff, 0x6fff, Meets, BOTH),
    (
        0,
        0,
        Leaves(3, &[(0, 0x3fff), (0x6000, 0xfedf_ffff), HIGH]),
        BOTH,
    ),
    (0, 0, Release(2), YES),
    (
        0,
        0,
        Leaves(2, &[(0, 0x3fff), (0x5000, 0xfedf_ffff), HIGH]),
        BOTH,
    ),
    (0, 0, Release(1), YES),
    (0, 0, Leaves(0, &[(0, 0x7f_ffff_ffff)]), BOTH),
];

static TABLES: [&[Row]; 4] = [ADDED, FITS, BOUNDED, KEPT];

// The first row that isn't answered so, beginning with nothing.
fn wrong_row(alloc: Global, rows: &[Row]) -> Option<usize> {
    let mut sets = Sets {
        set: RangeSet::new(alloc),
        allowed: Allowed::new(alloc),
        reserved: Reserved::new(alloc),
    };
    first_wrong(&mut sets, alloc, rows)
}

// Whether each row of the table at this place is answered so.
fn is_right(alloc: Global, place: usize) -> bool {
    match TABLES.get(place) {
        Some(rows) => wrong_row(alloc, *rows).is_none(),
        None => false,
    }
}

#[test]
fn each_call_answers_as_its_row_says(rt: HostRuntime) {
    for place in 0..TABLES.len() {
        assert!(rt; is_right(rt.alloc(), place), "table {place}");
    }
}

#[test]
fn laws_hold() {
    laws::equal_sets_have_equal_spans();
    laws::fits_are_tested();
    laws::room_is_found();
    laws::fits_depend_on_free_numbers();
    laws::worked_rooms();
}

fn push(areas: &mut Vec<Span>, first: u64, length: u64) -> bool {
    match Span::of_length(first, length) {
        Some(span) => areas.push(span).is_ok(),
        None => false,
    }
}

// Every second page, and the last number before the page that would be next.
fn push_all(areas: &mut Vec<Span>) -> bool {
    for number in 0..65_534u64 {
        if !push(areas, 0x2000 * number, 0x1000) {
            return false;
        }
    }
    push(areas, 0x2000 * 65_534 - 1, 1)
}

// The last area leaves two pages free, and each other one.
fn fit_beside_all(set: &mut RangeSet, areas: &mut Vec<Span>) -> bool {
    let Some(whole) = Span::new(0, 0x2000 * 65_535) else {
        return false;
    };
    set.add(whole).is_ok()
        && push_all(areas)
        && fit(set, 0x1000, areas) == At(0x1000)
        && fit(set, 0x2000, areas) == At(0x2000 * 65_534)
        && fit(set, 0x2002, areas) == Nothing
}

// The same of a new set and a new list.
fn are_fits_found(alloc: Global) -> bool {
    let mut set = RangeSet::new(alloc);
    let mut areas = Vec::new(alloc);
    fit_beside_all(&mut set, &mut areas)
}

#[test]
fn a_fit_is_found_beside_as_many_areas_as_may_be(rt: HostRuntime) {
    assert!(rt; are_fits_found(rt.alloc()));
}
