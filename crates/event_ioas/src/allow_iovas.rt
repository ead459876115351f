//! AllowIovas: the ranges to which the addresses that the server chooses in an address space are bounded.

ghost use Rattle.std.specs.Prelude.{◌≡◌, ◌<◌, true, false, ℕ, IfOk, IsTrue};
ghost use Rattle.std.specs.Prelude.{OnErr, length, nat_lt};
ghost use Rattle.std.specs.List.Sorted.{IsNonDecreasingBy};
ghost use Rattle.iofd_words.specs.Allowed.{are_ranges};
ghost use Rattle.iofd_refusals.specs.Checks.{allow_iovas_checks};
ghost use Rattle.iofd_words.specs.FirstTrue.{first_true};
ghost use Rattle.iofd_words.specs.Ranges.{meets_some};
ghost use Rattle.iofd_words.specs.declared.event.Event.TheVariants as event;
ghost use Rattle.event_ioas.specs.RangeChecks.{range_checks};
ghost use Rattle.event_ioas.specs.Rising.{are_rising, ends_below};
ghost use Rattle.server_state.specs.Seen.{seen};
ghost use Rattle.server_state.specs.Step.{IsKnown, ShowsSame, Steps};

use crate::unusable;
use iofd_words::{Cause, FileNo, IovaRange, NoMemory, ObjId, RangeList, Reply};
use iova_ranges::{AllowedRow, by_start};
use server_state::{State, lookups};
use std::alloc::Allocator;

/// Why it is refused, by the first row of the definitions that holds. None where nothing refuses it. The memory in
/// which it sorts the ranges is given back.
#[tactic(auto, unfolding(iofd_refusals::specs::Checks::allow_iovas_checks))]
pub fn refusal<A: Allocator + Copy>(
    state: &State<A>,
    file: FileNo,
    ioas: ObjId,
    ranges: &[IovaRange],
) -> Option<Cause>
    requires { IsKnown state.now }
    ensures { result ≡ first_true (allow_iovas_checks (seen state.now) file ioas ranges.now) }
{
    if !state.objects.is_open(file) {
        return Some(Cause::Id);
    }
    let Some(_) = lookups::areas_of(&state.objects, file, ioas) else {
        return Some(Cause::Id);
    };
    refusal_by_ranges(state, file, ioas, ranges)
}

/// Why these ranges are refused for the address space. Those that don't rise are sorted first, or compared each with
/// each where there is no memory for that.
fn refusal_by_ranges<A: Allocator + Copy>(
    state: &State<A>,
    file: FileNo,
    ioas: ObjId,
    ranges: &[IovaRange],
) -> Option<Cause>
    requires { IsKnown state.now }
    ensures { result ≡ first_true (range_checks (seen state.now) file ioas ranges.now) }
{
    if are_rising(ranges) {
        return refusal_of_rising(state, file, ioas, ranges);
    }
    match by_start(state.alloc, ranges) {
        Ok(sorted) => refusal_of_sorted(state, file, ioas, &sorted),
        Err(NoMemory) => refusal_as_given(state, file, ioas, ranges),
    }
}

/// Why ranges by rising start are refused. They rise, where each is one and no two have an address in common.
fn refusal_of_sorted<A: Allocator>(
    state: &State<A>,
    file: FileNo,
    ioas: ObjId,
    ranges: &[IovaRange],
) -> Option<Cause>
    requires known { IsKnown state.now }
    requires sorted { IsNonDecreasingBy (λ range. range.first) ranges.now }
    ensures { result ≡ first_true (range_checks (seen state.now) file ioas ranges.now) }
{
    if are_rising(ranges) {
        return refusal_of_rising(state, file, ioas, ranges);
    }
    Some(Cause::List)
}

/// Why ranges that rise are refused.
fn refusal_of_rising<A: Allocator>(
    state: &State<A>,
    file: FileNo,
    ioas: ObjId,
    ranges: &[IovaRange],
) -> Option<Cause>
    requires known { IsKnown state.now }
    requires rising { are_rising ranges.now ≡ true }
    ensures { result ≡ first_true (range_checks (seen state.now) file ioas ranges.now) }
{
    if unusable::meets_rising(state, file, ioas, ranges) {
        return Some(Cause::Narrow);
    }
    None
}

/// Why ranges in any order are refused.
fn refusal_as_given<A: Allocator>(
    state: &State<A>,
    file: FileNo,
    ioas: ObjId,
    ranges: &[IovaRange],
) -> Option<Cause>
    requires { IsKnown state.now }
    ensures { result ≡ first_true (range_checks (seen state.now) file ioas ranges.now) }
{
    if !are_apart(ranges) {
        return Some(Cause::List);
    }
    if unusable::meets_given(state, file, ioas, ranges) {
        return Some(Cause::Narrow);
    }
    None
}

/// Whether each range begins below its last address, and ends below the next one.
fn are_rising(ranges: &[IovaRange]) -> bool
    ensures { result ≡ are_rising ranges.now }
{
    let mut rest = ranges;
    while let Some((range, others)) = rest.split_first() {
        if range.start >= range.last || !ends_below(*range, others) {
            return false;
        }
        rest = others;
    }
    true
}

/// Whether the range ends below the first of the others, if there is one.
fn ends_below(range: IovaRange, others: &[IovaRange]) -> bool
    ensures { result ≡ ends_below range others.now }
{
    match others.first() {
        Some(next) => range.last < next.start,
        None => true,
    }
}

/// Whether each range begins below its last address, and no two have an address in common: each is compared with
/// each.
fn are_apart(ranges: &[IovaRange]) -> bool
    ensures { result ≡ are_ranges ranges.now }
{
    let mut rest = ranges;
    while let Some((range, others)) = rest.split_first() {
        if range.start >= range.last || meets_some(others, *range) {
            return false;
        }
        rest = others;
    }
    true
}

/// Whether one of the ranges has an address in common with this one.
fn meets_some(others: &[IovaRange], range: IovaRange) -> bool
    ensures { result ≡ meets_some others.now range }
{
    others
        .iter()
        .any(|one| one.start <= range.last && range.start <= one.last)
}

/// What it does where nothing refuses it: the address space allows these ranges, in place of those before; an empty
/// list allows all addresses again.
///
/// The only error is want of memory, which an empty list doesn't take. It leaves the world as it was.
pub fn commit<A: Allocator + Copy>(
    state: &mut State<A>,
    file: FileNo,
    ioas: ObjId,
    ranges: &RangeList<A>,
) -> Result<Reply, NoMemory>
    ensures ok { IfOk result (λ reply. (at : ℕ)
        → Steps at (event.AllowIovas file ioas ranges.now) state.old reply state.new) }
    ensures err { OnErr result (ShowsSame state.old state.new) }
    ensures memory { OnErr result (IsTrue (nat_lt 0 (length ranges.now))) }
{
    if ranges.as_slice().is_empty() {
        state.allowed.remove(file, ioas);
        return Ok(Reply::Done);
    }
    let ranges = ranges.copied(state.alloc)?;
    let row = AllowedRow::new(state.alloc, file, ioas, ranges)?;
    state.allowed.set(row)?;
    Ok(Reply::Done)
}
