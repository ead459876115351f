//! Where an area comes to lie: at a fixed address, or at one that the server chooses.

ghost use Rattle.std.specs.Prelude.{◌≡◌, ◌==◌, ◌&&◌, ◌||◌, not, true, false, None, MatchOption};
ghost use Rattle.iofd_steps.specs.After.{mapped_area};
ghost use Rattle.iofd_refusals.specs.Checks.{has_choice, lacks_mapped_frames, unusable_in};
ghost use Rattle.iofd_words.specs.FirstTrue.{first_true};
ghost use Rattle.iofd_words.specs.Pages.{is_above_sum, is_whole};
ghost use Rattle.iofd_words.specs.Ranges.{meets_some};
ghost use Rattle.iofd_words.specs.Rights.{is_fixed, is_readable, is_writeable};
ghost use Rattle.iofd_words.specs.Span.{span_from};
ghost use Rattle.event_map.specs.Place.{HasNoPlace, IsPlace, SeeksPlace, place_checks};
ghost use Rattle.server_state.specs.Seen.{seen};
ghost use Rattle.server_state.specs.Step.{IsKnown};

use crate::choice;
use area_map::Areas;
use iofd_words::{Area, Cause, FileNo, Iova, MapFlags, MapRequest, PAGE_SIZE, Phase, Span};
use server_state::addresses::is_above_sum;
use server_state::{State, lookups};
use std::alloc::Allocator;

/// The span that is mapped.
pub(crate) fn place_of<A: Allocator>(
    state: &State<A>,
    file: FileNo,
    request: MapRequest,
) -> Option<Span>
    requires known { IsKnown state.now }
    requires some { (request.length == 0) ≡ false }
    ensures { MatchOption result (HasNoPlace (seen state.now) file request) (IsPlace (seen state.now) file request) }
{
    if request.flags.is_fixed() {
        return fixed_span(request);
    }
    match lookups::areas_of(&state.objects, file, request.ioas) {
        Some(areas) => choice::least_span(state, file, request, areas),
        None => None,
    }
}

/// The span from the address of the request. None where it ends above 2^64 - 1.
fn fixed_span(request: MapRequest) -> Option<Span>
    requires { (request.length == 0) ≡ false }
    ensures { MatchOption result
        (is_above_sum request.iova.0 request.length ≡ true)
        (λ span. span ≡ span_from request.iova.0 request.length) }
{
    Span::of_length(request.iova.0, request.length)
}

pub(crate) fn mapped_area(at: u64, file: FileNo, request: MapRequest, span: Span) -> Area
    requires { span ≡ span_from span.first request.length }
    ensures { result ≡ mapped_area at file request (record { 0 = span.first }) }
{
    Area {
        file,
        ioas: request.ioas,
        span,
        memory: at,
        rights: request.flags.rights(),
        phase: Phase::Live,
    }
}

/// Whether the flags give the right to read or to write.
pub(crate) fn gives_right(flags: MapFlags) -> bool
    ensures { result ≡ (is_readable flags || is_writeable flags) }
{
    flags.is_readable() || flags.is_writeable()
}

/// Whether the flags fix the address, and with the length it is above 2^64.
pub(crate) fn has_fixed_sum_above(flags: MapFlags, iova: Iova, length: u64) -> bool
    ensures { result ≡ (is_fixed flags && is_above_sum iova.0 length) }
{
    flags.is_fixed() && is_above_sum(iova.0, length)
}

/// Whether the flags fix the address, and it isn't the first of a page.
pub(crate) fn is_fixed_in_page(flags: MapFlags, iova: Iova) -> bool
    ensures { result ≡ (is_fixed flags && not (is_whole iova.0)) }
{
    flags.is_fixed() && iova.0 % PAGE_SIZE != 0
}

/// Why there is no place for it in the address space with these areas, by the first row that holds. None where there is
/// one.
pub(crate) fn refusal<A: Allocator>(
    state: &State<A>,
    file: FileNo,
    request: MapRequest,
    areas: &Areas<A>,
) -> Option<Cause>
    requires { SeeksPlace state.now file request areas.now.areas }
    ensures { result ≡ first_true (place_checks (seen state.now) file request) }
{
    if !request.flags.is_fixed() {
        if areas.is_full() || !has_choice(state, file, request, areas) {
            return Some(Cause::Full);
        }
        return None;
    }
    // There is one: with the length the address isn't above 2^64.
    let span = fixed_span(request)?;
    if is_unusable(state, file, request, span) {
        return Some(Cause::Reserved);
    }
    if areas.meets(span) {
        return Some(Cause::Overlap);
    }
    if areas.is_full() {
        return Some(Cause::Full);
    }
    None
}

/// Whether some of the span can't be used.
fn is_unusable<A: Allocator>(
    state: &State<A>,
    file: FileNo,
    request: MapRequest,
    span: Span,
) -> bool
    requires { IsKnown state.now }
    ensures { result ≡ meets_some (unusable_in (seen state.now) file request.ioas) span }
{
    state.unusable_meeting(file, request.ioas, span).is_some()
}

/// Whether some address may be chosen in the address space with these areas. The highest addresses are asked about
/// first, and all are searched only where these may not be chosen.
fn has_choice<A: Allocator>(
    state: &State<A>,
    file: FileNo,
    request: MapRequest,
    areas: &Areas<A>,
) -> bool
    requires { SeeksPlace state.now file request areas.now.areas }
    ensures { result ≡ has_choice (seen state.now) file request }
{
    choice::may_end_last(state, file, request, areas)
        || choice::least_span(state, file, request, areas).is_some()
}

/// Where it comes to lie in the address space with these areas. None where there is no place.
fn place_among<A: Allocator>(
    state: &State<A>,
    file: FileNo,
    request: MapRequest,
    areas: &Areas<A>,
) -> Option<Span>
    requires { SeeksPlace state.now file request areas.now.areas }
    ensures { MatchOption result (HasNoPlace (seen state.now) file request) (IsPlace (seen state.now) file request) }
{
    if request.flags.is_fixed() {
        return fixed_span(request);
    }
    choice::least_span(state, file, request, areas)
}

/// Whether the page tables of the address space lack more tables for the span, where it comes to lie, than frames are
/// free.
pub(crate) fn lacks_frames<A: Allocator>(
    state: &State<A>,
    file: FileNo,
    request: MapRequest,
    areas: &Areas<A>,
) -> bool
    requires seeks { SeeksPlace state.now file request areas.now.areas }
    requires passed { first_true (place_checks (seen state.now) file request) ≡ None }
    ensures { result ≡ lacks_mapped_frames (seen state.now) file request }
{
    if !state.has_hwpt(file, request.ioas) {
        return false;
    }
    match place_among(state, file, request, areas) {
        Some(span) => {
            state.tables_to_map(file, request.ioas, span) > u64::from(state.pool.free_count())
        }
        // There is a place.
        None => false,
    }
}
