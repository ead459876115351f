//! Addresses at which an area may come to lie.

ghost use Rattle.std.specs.Prelude.{◌≡◌, ◌≤◌, ◌+◌, ◌^◌, ◌||◌, not, length, filter, map, IfOk};
ghost use Rattle.std.specs.List.{list_all};
ghost use Rattle.iofd_words.specs.Allowed.{allowed_of};
ghost use Rattle.iofd_refusals.specs.Checks.{least, mapped_start, may_choose};
ghost use Rattle.iofd_words.specs.Fits.{whole_from};
ghost use Rattle.iofd_words.specs.Ranges.{in_spans, meets_some};
ghost use Rattle.iofd_words.specs.Room.{is_covered_by, starts_to_try};
ghost use Rattle.iofd_words.specs.Span.{holds};
ghost use Rattle.iofd_words.specs.Usable.{allowed_spans};
ghost use Rattle.iofd_words.specs.View.{view};
ghost use Rattle.journal_audit_maps.specs.Newly.{lesser};
ghost use Rattle.journal_audit.specs.Starts.{is_found_by, may_lie, passing};

use crate::spans;
use iofd_words::{FileNo, IovaRange, MapRequest, NoMemory, ObjId, Span};
use journal_audit_world::allowed::row_of;
use journal_audit_world::{AllowedRow, World, pages};
use std::alloc::Allocator;

// All addresses.
const EVERYTHING: IovaRange = IovaRange {
    start: 0,
    last: u64::MAX,
};

// ---- the ranges to which chosen addresses are bounded

/// The ranges to which addresses that are chosen in the address space are bounded.
pub fn choices<A: Allocator + Copy>(
    alloc: A,
    rows: &[AllowedRow<A>],
    file: FileNo,
    ioas: ObjId,
) -> Result<Vec<IovaRange, A>, NoMemory>
    ensures { IfOk result (λ ranges. ranges.items ≡ allowed_spans (allowed_of rows.now file ioas)) }
{
    let mut ranges = Vec::new(alloc);
    if let Some(row) = row_of(rows, file, ioas) {
        ranges.extend_from_slice(&row.ranges)?;
    }
    if ranges.is_empty() {
        ranges.push(EVERYTHING)?;
    }
    Ok(ranges)
}

// ---- one address

// Whether the range holds the address.
fn has(range: IovaRange, address: u64) -> bool
    ensures { result ≡ holds range address }
{
    range.start <= address && address <= range.last
}

// Whether some range holds the address.
fn in_ranges(ranges: &[IovaRange], address: u64) -> bool
    ensures { result ≡ in_spans ranges.now address }
{
    for range in ranges {
        if has(*range, address) {
            return true;
        }
    }
    false
}

// Whether, if the range ends inside the span, some range goes on behind it.
fn goes_on(ranges: &[IovaRange], span: Span, range: IovaRange) -> bool
    ensures { result ≡ (not (holds span (range.last + 1)) || in_spans ranges.now (range.last + 1)) }
{
    match range.last.checked_add(1) {
        Some(next) => !span.holds(next) || in_ranges(ranges, next),
        None => {
            span.facts();
            true
        }
    }
}

fn all_go_on(ranges: &[IovaRange], span: Span) -> bool
    ensures { result
        ≡ list_all (λ one. not (holds span (one.last + 1)) || in_spans ranges.now (one.last + 1)) ranges.now }
{
    for range in ranges {
        if !goes_on(ranges, span, *range) {
            return false;
        }
    }
    true
}

// Whether each address of the span is in some range.
fn is_covered_by(ranges: &[IovaRange], span: Span) -> bool
    ensures { result ≡ is_covered_by ranges.now span }
{
    in_ranges(ranges, span.first()) && all_go_on(ranges, span)
}

// Whether some span has an address in common with this one. Those from this place on are looked at first.
fn meets_from(taken: &[Span], place: usize, span: Span) -> bool
    requires { place ≤ length taken.now }
    ensures { result ≡ meets_some taken.now span }
{
    spans::meets_some(&taken[place..], span) || spans::meets_some(&taken[..place], span)
}

/// Whether so many bytes may lie from this address on: in the ranges, beside what is taken. Of what is taken that from
/// this place on is looked at first.
pub fn may_start(
    choices: &[IovaRange],
    taken: &[Span],
    place: usize,
    bytes: u64,
    start: u64,
) -> bool
    requires { place ≤ length taken.now }
    ensures { result ≡ may_lie bytes choices.now taken.now start }
{
    if pages::is_above_sum(start, bytes) {
        return false;
    }
    match Span::of_length(start, bytes) {
        Some(span) => {
            pages::is_whole(start)
                && !meets_from(taken, place, span)
                && is_covered_by(choices, span)
        }
        None => false,
    }
}

// ---- the least address

// Whether one that is found stands at this address, or before it.
fn is_found_by(least: Option<u64>, start: u64) -> bool
    ensures { result ≡ is_found_by least start }
{
    match least {
        Some(found) => found <= start,
        None => false,
    }
}

// The lesser of what is found and the first border of a page from this address on, if so many bytes may lie from there
// on. That is asked for only where it would be less.
fn lesser_start(
    least: Option<u64>,
    choices: &[IovaRange],
    taken: &[Span],
    place: usize,
    bytes: u64,
    from: u128,
) -> Option<u64>
    requires within { place ≤ length taken.now }
    requires below { from ≤ 2 ^ 64 }
    ensures { result ≡ lesser least (passing (may_lie bytes choices.now taken.now) (whole_from from)) }
{
    let whole = (from + 4095) / 4096 * 4096;
    if whole >= 1 << 64 {
        return least;
    }
    let start = whole as u64;
    if is_found_by(least, start) {
        return least;
    }
    if may_start(choices, taken, place, bytes, start) {
        return Some(start);
    }
    least
}

// The least of those where the ranges begin.
fn least_first(choices: &[IovaRange], taken: &[Span], bytes: u64) -> Option<u64>
    ensures { result ≡ least (filter (may_lie bytes choices.now taken.now)
        (map (λ range. whole_from range.first) choices.now)) }
{
    let mut least = None;
    for range in choices {
        let from = u128::from(range.start);
        least = lesser_start(least, choices, taken, 0, bytes, from);
    }
    least
}

// The lesser of this and of those behind what is taken. Behind a span the next ones are looked at first: where spans
// adjoin, one look tells that nothing may lie there.
fn least_behind(
    first: Option<u64>,
    choices: &[IovaRange],
    taken: &[Span],
    bytes: u64,
) -> Option<u64>
    ensures { result ≡ lesser first (least (filter (may_lie bytes choices.now taken.now)
        (map (λ span. whole_from (span.last + 1)) taken.now))) }
{
    let mut least = first;
    for (index, span) in taken.iter().enumerate() {
        let from = u128::from(span.last()) + 1;
        least = lesser_start(least, choices, taken, index + 1, bytes, from);
    }
    least
}

/// The least address from which on so many bytes may lie.
pub fn least_start(choices: &[IovaRange], taken: &[Span], bytes: u64) -> Option<u64>
    ensures { result ≡ least (filter (may_lie bytes choices.now taken.now) (starts_to_try choices.now taken.now)) }
{
    let first = least_first(choices, taken, bytes);
    least_behind(first, choices, taken, bytes)
}

// ---- where an area comes to lie

/// Where the area comes to lie: at the fixed address, or at the least that may be chosen.
pub fn mapped_start<A: Allocator + Copy>(
    alloc: A,
    world: &World<A>,
    file: FileNo,
    request: MapRequest,
) -> Result<Option<u64>, NoMemory>
    ensures { IfOk result (λ start. start ≡ mapped_start (view world.now) file request) }
{
    if request.flags.is_fixed() {
        return Ok(Some(request.iova.0));
    }
    let choices = choices(alloc, &world.allowed, file, request.ioas)?;
    let taken = spans::taken(alloc, world, file, request.ioas)?;
    Ok(least_start(&choices, &taken, request.length))
}

/// Whether the address may be chosen.
pub fn may_choose<A: Allocator + Copy>(
    alloc: A,
    world: &World<A>,
    file: FileNo,
    request: MapRequest,
    start: u64,
) -> Result<bool, NoMemory>
    ensures { IfOk result (λ may. may ≡ may_choose (view world.now) file request start) }
{
    let choices = choices(alloc, &world.allowed, file, request.ioas)?;
    let taken = spans::taken(alloc, world, file, request.ioas)?;
    Ok(may_start(&choices, &taken, 0, request.length, start))
}
