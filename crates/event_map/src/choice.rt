//! The address that the server chooses for a MAP that doesn't fix one.

ghost use Rattle.std.specs.Prelude.{◌≡◌, ◌==◌, ◌+◌, ◌≤◌, ◌^◌, ℕ, true, false, MatchOption};
ghost use Rattle.area_map_rows.specs.Areas.{AreKept, HasNoneFree};
ghost use Rattle.iofd_words.specs.Allowed.{allowed_of};
ghost use Rattle.iofd_refusals.specs.Checks.{has_choice, may_choose};
ghost use Rattle.iofd_words.specs.Fits.{whole_from};
ghost use Rattle.iofd_words.specs.Span.{span_from};
ghost use Rattle.iofd_words.specs.Usable.{allowed_spans};
ghost use Rattle.iova_ranges.specs.Gaps.{IsGap};
ghost use Rattle.iova_ranges.specs.Ranges.{AllIn};
ghost use Rattle.event_map.specs.Place.{IsFreeSpan, IsInTheWay, IsLeastSpan, IsOpen, SeeksPlace};
ghost use Rattle.server_state.specs.Held.{areas_at};
ghost use Rattle.server_state.specs.Seen.{seen};
ghost use Rattle.server_state.specs.Step.{IsKnown};

use area_map::Areas;
use iofd_words::{FileNo, MapRequest, ObjId, PAGE_SIZE, Span};
use server_state::State;
use std::alloc::Allocator;

/// The span from the least address that the server may choose; None where it may choose none. It asks the areas for the
/// next gap that is wide enough, and passes each span there that can't be used or isn't allowed at most twice, from
/// below. It takes no memory.
pub(crate) fn least_span<A: Allocator>(
    state: &State<A>,
    file: FileNo,
    request: MapRequest,
    areas: &Areas<A>,
) -> Option<Span>
    requires known { IsKnown state.now }
    requires some { (request.length == 0) ≡ false }
    requires here { areas_at state.now.objects.rows file request.ioas ≡ areas.now.areas }
    ensures { MatchOption result
        ((x : ℕ) → may_choose (seen state.now) file request x ≡ false)
        (IsLeastSpan (seen state.now) file request) }
{
    let mut start = 0;
    while let Some(span) = free_span(areas, start, request.length) {
        let Some(one) = closed_meeting(state, file, request, span) else {
            return Some(span);
        };
        let Some(next) = page_after(one.last()) else {
            return None;
        };
        start = next;
    }
    None
}

/// Whether the span that ends at the last address of all may be chosen, which asks for no search. Where nothing bounds
/// the addresses, it nearly always may.
pub(crate) fn may_end_last<A: Allocator>(
    state: &State<A>,
    file: FileNo,
    request: MapRequest,
    areas: &Areas<A>,
) -> bool
    requires { SeeksPlace state.now file request areas.now.areas }
    ensures { result ≡ true → has_choice (seen state.now) file request ≡ true }
{
    let first = u64::MAX - (request.length - 1);
    let Some(span) = Span::of_length(first, request.length) else {
        return false;
    };
    if areas.meets(span) {
        return false;
    }
    closed_meeting(state, file, request, span).is_none()
}

/// So many addresses from the least one on, from the start on, from which they meet no area; None where they meet one
/// from each.
fn free_span<A: Allocator>(areas: &Areas<A>, start: u64, length: u64) -> Option<Span>
    requires { (length == 0) ≡ false }
    ensures span { MatchOption result
        (HasNoneFree start length areas.now.areas)
        (IsFreeSpan start length areas.now.areas) }
    ensures kept { AreKept areas.now.areas }
{
    let first = areas.free_from(start, length)?;
    Span::of_length(first, length)
}

/// Addresses that can't be used or aren't allowed, one of which lies in the span.
fn closed_meeting<A: Allocator>(
    state: &State<A>,
    file: FileNo,
    request: MapRequest,
    span: Span,
) -> Option<Span>
    requires known { IsKnown state.now }
    requires some { (request.length == 0) ≡ false }
    requires from { span ≡ span_from span.first request.length }
    ensures { MatchOption result
        (IsOpen (seen state.now) file request span)
        (IsInTheWay (seen state.now) file request span) }
{
    match state.unusable_meeting(file, request.ioas, span) {
        Some(one) => Some(one),
        None => gap_meeting(state, file, request.ioas, span),
    }
}

/// Addresses that aren't allowed to the address space, one of which lies in the span.
fn gap_meeting<A: Allocator>(
    state: &State<A>,
    file: FileNo,
    ioas: ObjId,
    span: Span,
) -> Option<Span>
    ensures { MatchOption result
        (AllIn (allowed_spans (allowed_of state.now.allowed.rows file ioas)) span)
        (IsGap (allowed_spans (allowed_of state.now.allowed.rows file ioas)) span) }
{
    match state.allowed.of(file, ioas) {
        Some(row) => row.gap_meeting(span),
        None => None,
    }
}

/// The first address of the page behind the one in which this address lies; None where it is the last.
fn page_after(address: u64) -> Option<u64>
    ensures { MatchOption result (2 ^ 64 ≤ whole_from (address + 1)) (λ next. next ≡ whole_from (address + 1)) }
{
    (address / PAGE_SIZE + 1).checked_mul(PAGE_SIZE)
}
