//! AccessPin: an access object pins pages of its address space.

ghost use Rattle.std.specs.Prelude.{◌≡◌, ◌∷◌, ◌&&◌, ℕ, [], Some, false, is_none, not, true, IfOk, OnErr};
ghost use Rattle.std.specs.List.{list_all, list_any};
ghost use Rattle.access_pages.specs.Runs as runs;
ghost use Rattle.iofd_runs.specs.Fits.{begins_at_page, is_of_pages};
ghost use Rattle.iofd_words.specs.Accesses.{has_gap, lacks_accessed_page, lacks_right, meets_leaving};
ghost use Rattle.iofd_words.specs.Accesses.{meets_without_right, pin_of};
ghost use Rattle.iofd_refusals.specs.Checks.{access_pin_checks, passes_limit_accessed, pin_checks_in};
ghost use Rattle.iofd_words.specs.FirstTrue.{first_true};
ghost use Rattle.iofd_words.specs.Objects.{access_ioas_of};
ghost use Rattle.iofd_words.specs.Pages.{is_whole};
ghost use Rattle.iofd_words.specs.Span.{is_whole_pages, meets};
ghost use Rattle.iofd_words.specs.TablePlaces.{is_live};
ghost use Rattle.iofd_words.specs.declared.event.Event.TheVariants as event;
ghost use Rattle.server_state.specs.Held.{areas_at, objects_in};
ghost use Rattle.server_state.specs.Seen.{seen};
ghost use Rattle.server_state.specs.Step.{IsGranted, IsKnown, Steps, TidyShowsSame};
ghost use Rattle.user_memory.specs.Memory.{frame_now, new_in_runs, run_lies};

use crate::account::passes_limit;
use crate::asked::{asked_pin, attached_to};
use access_pages::{meeting, run_in};
use area_map::{Areas, Iter};
use iofd_words::{
    AccessKind, Area, Cause, FileNo, NoMemory, ObjId, ObjectKind, PAGE_SIZE, Phase, PinRequest,
    Reply, Span,
};
use server_state::addresses::is_above_sum;
use server_state::{State, accounts, lookups};
use std::alloc::Allocator;
use user_memory::UserMemory;

/// Why it is refused, by the first row of the definitions that holds. None where nothing refuses it.
///
/// Refused by 11 (ENOENT, `Cause::Id`) where the file isn't open or has no access object of this id, then by 28
/// (ENOENT, `Cause::Unattached`) where that isn't attached, then by 19 (EOVERFLOW, `Cause::Sum`) where the span would
/// end above 2^64, then by 20 (EINVAL, `Cause::Align`) where the address or the length is none of whole pages, or the
/// length is 0, then by 10 (ENOENT, `Cause::Span`) where some page lies in no area, then by 17 (EINVAL,
/// `Cause::Leaving`) where an area under it is leaving, then by 16 (EPERM, `Cause::Rights`) where one may not be read,
/// or not be written where that is asked for, then by 23 (ENOSPC, `Cause::Full`) where the access object holds 65,535
/// pins, then by 8 (EFAULT, `Cause::Absent`) where a page isn't pinned and isn't in its user's memory, and then by 7
/// (ENOMEM, `Cause::Account`) where with the pages that would be pinned anew the file's user would have more pinned
/// pages than the limit allows.
#[tactic(auto, unfolding(iofd_refusals::specs::Checks::access_pin_checks))]
pub fn refusal<A: Allocator>(
    state: &State<A>,
    file: FileNo,
    id: ObjId,
    request: PinRequest,
) -> Option<Cause>
    requires { IsKnown state.now }
    ensures { result ≡ first_true (access_pin_checks (seen state.now) file id request) }
{
    if !state.objects.is_open(file) {
        return Some(Cause::Id);
    }
    let Some(ObjectKind::Access { ioas: attached }) = lookups::kind_of(&state.objects, file, id)
    else {
        return Some(Cause::Id);
    };
    let Some(ioas) = attached else {
        return Some(Cause::Unattached);
    };
    refusal_in(state, file, id, ioas, request)
}

/// What it does where nothing refuses it: the pages under the span are pinned, each once more, and the access object
/// holds one pin more. A page that is pinned keeps its frame; each other is pinned at the frame that it is in its
/// user's memory now, and the user is charged for it. (`iommufd.h` of the kernel, `iommufd_access_pin_pages`.)
///
/// The only error is want of memory. It leaves the world as it was, and doesn't come where an equal pin is held.
pub fn commit<A: Allocator + Copy>(
    state: &mut State<A>,
    file: FileNo,
    id: ObjId,
    request: PinRequest,
) -> Result<Reply, NoMemory>
    requires { IsGranted (event.AccessPin file id request) state.old }
    ensures ok { IfOk result (λ reply. (at : ℕ) →
        Steps at (event.AccessPin file id request) state.old reply state.new) }
    ensures err { OnErr result ((at : ℕ) → TidyShowsSame at state.old state.new) }
    ensures memory { OnErr result ((seen state.old).is_held (pin_of file id request) ≡ false) }
{
    // Nothing refuses it: so the file has a user, and the access object an address space.
    let Some(_) = accounts::user_of(&state.config, file) else {
        unreachable!()
    };
    let Some(ioas) = attached_to(&state.objects, file, id) else {
        unreachable!()
    };
    let Some(pin) = asked_pin(file, id, ioas, request) else {
        unreachable!()
    };
    let Some(areas) = lookups::areas_of(&state.objects, file, ioas) else {
        unreachable!()
    };
    areas.facts();
    let span = pin.span;
    let met = meeting(areas, span);
    access_pages::pin_all(met, span, &mut state.memory, &mut state.pool)?;
    match state.access_pins.pin(pin) {
        Ok(()) => Ok(Reply::Done),
        Err(no_memory) => {
            let areas = meeting(areas, span);
            access_pages::unpin_all(areas, span, &mut state.memory, &mut state.pool);
            Err(no_memory)
        }
    }
}

/// Why a pin in the address space, to which the access object is attached, is refused.
fn refusal_in<A: Allocator>(
    state: &State<A>,
    file: FileNo,
    id: ObjId,
    ioas: ObjId,
    request: PinRequest,
) -> Option<Cause>
    requires known { IsKnown state.now }
    requires attached { access_ioas_of (objects_in state.now.objects) file id ≡ Some ioas }
    ensures { result ≡ first_true (pin_checks_in (seen state.now) file id request (Some ioas)) }
{
    if is_above_sum(request.iova.0, request.length) {
        return Some(Cause::Sum);
    }
    if request.length == 0 || !are_pages(request) {
        return Some(Cause::Align);
    }
    let Some(span) = Span::of_length(request.iova.0, request.length) else {
        // It has addresses.
        unreachable!()
    };
    let Some(areas) = lookups::areas_of(&state.objects, file, ioas) else {
        // It is attached to an address space.
        unreachable!()
    };
    refusal_under(state, file, id, ioas, areas, span, request.write)
}

/// Whether the length and the address are of whole pages.
fn are_pages(request: PinRequest) -> bool
    ensures { result ≡ (is_whole request.length && is_whole request.iova.0) }
{
    request.length % PAGE_SIZE == 0 && request.iova.0 % PAGE_SIZE == 0
}

/// Why a pin of the span is refused, where these are the areas of the address space: the rows from `Cause::Span` on.
fn refusal_under<A: Allocator>(
    state: &State<A>,
    file: FileNo,
    id: ObjId,
    ioas: ObjId,
    areas: &Areas<A>,
    span: Span,
    write: bool,
) -> Option<Cause>
    requires known { IsKnown state.now }
    requires span { is_whole_pages span ≡ true }
    requires there { areas_at state.now.objects.rows file ioas ≡ areas.now.areas }
    ensures { result ≡ first_true (
        (Cause.Span, has_gap span ((seen state.now).areas_of file ioas))
        ∷ (Cause.Leaving, meets_leaving span ((seen state.now).areas_of file ioas))
        ∷ (Cause.Rights, meets_without_right span write ((seen state.now).areas_of file ioas))
        ∷ (Cause.Full, (seen state.now).has_most_pins file id)
        ∷ (Cause.Absent, lacks_accessed_page (seen state.now) file ioas span)
        ∷ (Cause.Account, passes_limit_accessed (seen state.now) file ioas span)
        ∷ []) }
{
    let met = meeting(areas, span);
    if has_gap(areas, met.again(), span) {
        return Some(Cause::Span);
    }
    if some_leaving(met.again()) {
        return Some(Cause::Leaving);
    }
    if some_without_right(met.again(), write) {
        return Some(Cause::Rights);
    }
    if state.access_pins.is_full(file, id) {
        return Some(Cause::Full);
    }
    refusal_by_pages(state, file, ioas, areas, span, met)
}

/// The same of the pages that the areas which meet the span have in it: the rows `Cause::Absent` and `Cause::Account`.
fn refusal_by_pages<A: Allocator>(
    state: &State<A>,
    file: FileNo,
    ioas: ObjId,
    areas: &Areas<A>,
    span: Span,
    met: Iter<'_, A>,
) -> Option<Cause>
    requires known { IsKnown state.now }
    requires span { is_whole_pages span ≡ true }
    requires there { areas_at state.now.objects.rows file ioas ≡ areas.now.areas }
    requires met { met ≡ runs.meeting span areas.now.areas }
    ensures { result ≡ first_true (
        (Cause.Absent, lacks_accessed_page (seen state.now) file ioas span)
        ∷ (Cause.Account, passes_limit_accessed (seen state.now) file ioas span)
        ∷ []) }
{
    areas.facts();
    span.facts();
    if lacks_page(met.again(), span, &state.memory) {
        return Some(Cause::Absent);
    }
    if passes_limit(state, file, met, span) {
        return Some(Cause::Account);
    }
    None
}

/// Whether some page of the span, which is of whole pages as the areas are, lies in no area: it looks at those alone
/// that meet the span, which these are.
fn has_gap<A: Allocator>(areas: &Areas<A>, met: Iter<'_, A>, span: Span) -> bool
    requires span { is_whole_pages span ≡ true }
    requires sizes { list_all is_of_pages areas.now.areas ≡ true }
    requires starts { list_all begins_at_page areas.now.areas ≡ true }
    requires met { met ≡ runs.meeting span areas.now.areas }
    ensures { result ≡ has_gap span areas.now.areas }
{
    areas.facts();
    span.facts();
    !met.cover(span)
}

/// Whether one of the areas is leaving.
fn some_leaving<A: Allocator>(areas: Iter<'_, A>) -> bool
    ensures { result ≡ list_any (λ area. not (is_live area.phase)) areas.entry }
{
    let mut left = areas;
    left.any(|area| is_leaving(area))
}

/// Whether one doesn't give a right that is asked for: each pin is for reads, and some for writes too.
fn some_without_right<A: Allocator>(areas: Iter<'_, A>, write: bool) -> bool
    ensures { result ≡ list_any (lacks_right write) areas.entry }
{
    let mut left = areas;
    left.any(|area| lacks_right(area, write))
}

/// Whether the area is leaving.
fn is_leaving(area: &Area) -> bool
    ensures { result ≡ not (is_live area.now.phase) }
{
    matches!(area.phase, Phase::Leaving { .. })
}

/// Whether the area may not be read, or not be written where that is asked for.
fn lacks_right(area: &Area, write: bool) -> bool
    ensures { result ≡ lacks_right write area.now }
{
    !area.rights.allow(AccessKind::Read) || write && !area.rights.allow(AccessKind::Write)
}

/// Whether a page of these areas, which meet the span, isn't pinned, and isn't in its user's memory.
fn lacks_page<A: Allocator>(areas: Iter<'_, A>, span: Span, memory: &UserMemory<A>) -> bool
    requires met { list_all (λ area. meets area.span span) areas ≡ true }
    requires lies { list_all (run_lies memory.now) (runs.runs_in span areas) ≡ true }
    ensures { result ≡ list_any (λ page. is_none (frame_now memory.now page))
        (new_in_runs memory.now (runs.runs_in span areas.entry)) }
{
    for area in areas {
        if memory.lacks_page_in(run_in(area, span)) {
            return true;
        }
    }
    false
}
