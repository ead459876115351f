//! COPY: the memory of an area is mapped a second time, at a fixed address or at one that the server chooses.

ghost use Rattle.std.specs.Prelude.{ℕ, ◌≡◌, ◌==◌, ◌&&◌, not, true, false, IfOk, OnErr, Option, Some};
ghost use Rattle.std.specs.Prelude.{[], ◌∷◌, ◌++◌};
ghost use Rattle.std.specs.Option.{option_copied};
ghost use Rattle.iofd_refusals.specs.Checks.{copy_checks, is_source_writable, lacks_copied_page, lacks_mapped_frames};
ghost use Rattle.iofd_refusals.specs.Checks.{passes_limit_copied, source_of};
ghost use Rattle.iofd_words.specs.Copies.{placed_as, source_in};
ghost use Rattle.iofd_words.specs.FirstTrue.{first_true};
ghost use Rattle.iofd_words.specs.Objects.{has_ioas};
ghost use Rattle.iofd_words.specs.Pages.{is_above_sum, is_whole};
ghost use Rattle.iofd_words.specs.Rights.{is_writeable};
ghost use Rattle.iofd_words.specs.TablePlaces.{is_live};
ghost use Rattle.iofd_words.specs.declared.event.Event.TheVariants as event;
ghost use Rattle.iofd_words.specs.declared.numbers.FrameNo.{FrameNo};
ghost use Rattle.event_map.specs.Place.{SeeksPlace, place_checks};
ghost use Rattle.event_map.specs.Sources.{number_of};
ghost use Rattle.server_state.specs.Held.{areas_at, objects_in};
ghost use Rattle.server_state.specs.Seen.{seen};
ghost use Rattle.server_state.specs.Step.{IsGranted, IsKnown, MovingSteps, TidyShowsSame};

use crate::{mapping, placing};
use area_map::Areas;
use iofd_words::{
    Area, Cause, CopyRequest, FileNo, FrameNo, Iova, MapRequest, NoMemory, PAGE_SIZE, Phase, Reply,
    Span,
};
use object_table::ObjectTable;
use server_state::addresses::is_above_sum;
use server_state::{Held, State, accounts, area_changes, lookups};
use std::alloc::Allocator;

/// Why it is refused, by the first row of the definitions that holds. None where nothing refuses it.
#[tactic(auto, unfolding(iofd_refusals::specs::Checks::copy_checks))]
pub fn refusal<A: Allocator>(state: &State<A>, file: FileNo, request: CopyRequest) -> Option<Cause>
    requires { IsKnown state.now }
    ensures { result ≡ first_true (copy_checks (seen state.now) file request) }
{
    if !state.objects.is_open(file) {
        return Some(Cause::Id);
    }
    if !placing::gives_right(request.flags) {
        return Some(Cause::NoRight);
    }
    if is_above_sum(request.src_iova.0, request.length)
        || placing::has_fixed_sum_above(request.flags, request.dst_iova, request.length)
    {
        return Some(Cause::Sum);
    }
    if request.length == 0 || !are_pages_of_source(request) {
        return Some(Cause::Align);
    }
    if placing::is_fixed_in_page(request.flags, request.dst_iova) {
        return Some(Cause::Align);
    }
    let Some(areas) = lookups::areas_of(&state.objects, file, request.dst_ioas) else {
        return Some(Cause::Id);
    };
    let Some(sources) = lookups::areas_of(&state.objects, file, request.src_ioas) else {
        return Some(Cause::Id);
    };
    let Some(source) = source_in(sources, request) else {
        return Some(Cause::Span);
    };
    refusal_by_areas(state, file, request, areas, source.memory)
}

/// What it does where nothing refuses it: another area comes over the memory object of the source area. Where page
/// tables translate it the object's pages are pinned, those that aren't yet, and mapped in each of them: the tables
/// that they lack are in the least free frames, which are named in `taken`, empty before. An address that isn't fixed
/// is the least that may be chosen.
///
/// The only error is want of memory. It leaves the world as it was.
pub fn commit<A: Allocator + Copy>(
    state: &mut State<A>,
    file: FileNo,
    request: CopyRequest,
    taken: &mut Vec<FrameNo, A>,
) -> Result<Reply, NoMemory>
    requires granted { IsGranted (event.Copy file request) state.old }
    requires empty { taken.old.items ≡ [] }
    ensures ok { IfOk result (λ reply. (at : ℕ) (via : Option FrameNo) →
        MovingSteps at (event.Copy file request) via state.old reply taken.new.items [] state.new) }
    ensures err { OnErr result ((at : ℕ) → TidyShowsSame at state.old state.new) }
    ensures none { OnErr result (taken.new.items ≡ []) }
{
    // Nothing refuses it: so the file has a user, and there is a source, and a place.
    let Some(user) = accounts::user_of(&state.config, file) else {
        unreachable!()
    };
    let Some(number) = source_number(&state.objects, file, request) else {
        unreachable!()
    };
    let placed = placed_as(request);
    let Some(span) = placing::place_of(state, file, placed) else {
        unreachable!()
    };
    let area = placing::mapped_area(number, file, placed, span);
    let pinned = state.has_hwpt(file, request.dst_ioas);
    let count = state.tables_to_map(file, request.dst_ioas, span);
    taken.reserve(count as usize)?;
    area_changes::reserve(&mut state.objects, file, request.dst_ioas)?;
    state.memory.objects_told();
    state.memory.share(&mut state.pool, user, number, pinned)?;
    mapping::map_area(state, &area, pinned, taken);
    area_changes::insert(&mut state.objects, file, request.dst_ioas, area);
    state.pool.facts();
    Ok(Reply::Iova(Iova(span.first())))
}

/// The MAP of as many bytes into the target: it comes to lie where the copy does.
fn placed_as(request: CopyRequest) -> MapRequest
    ensures { result ≡ placed_as request }
{
    MapRequest {
        flags: request.flags,
        ioas: request.dst_ioas,
        user_va: 0,
        length: request.length,
        iova: request.dst_iova,
    }
}

/// Whether the length and the source's address are of whole pages.
fn are_pages_of_source(request: CopyRequest) -> bool
    ensures { result ≡ (is_whole request.length && is_whole request.src_iova.0) }
{
    request.length % PAGE_SIZE == 0 && request.src_iova.0 % PAGE_SIZE == 0
}

/// The live area whose span is exactly the source range.
fn source_in<A: Allocator>(areas: &Areas<A>, request: CopyRequest) -> Option<&Area>
    requires some { (request.length == 0) ≡ false }
    requires sum { is_above_sum request.src_iova.0 request.length ≡ false }
    ensures { option_copied result ≡ source_in areas.now.areas request }
{
    let Some(span) = Span::of_length(request.src_iova.0, request.length) else {
        return None;
    };
    // No two of them have an address in common.
    areas.facts();
    let Some(area) = areas.exact(span) else {
        return None;
    };
    if is_live(&area.phase) {
        Some(area)
    } else {
        None
    }
}

fn is_live(phase: &Phase) -> bool
    ensures { result ≡ is_live phase.now }
{
    matches!(phase, Phase::Live)
}

/// The number of the source's memory object.
fn source_number<A: Allocator>(
    table: &ObjectTable<Held<A>, A>,
    file: FileNo,
    request: CopyRequest,
) -> Option<u64>
    requires some { (request.length == 0) ≡ false }
    requires sum { is_above_sum request.src_iova.0 request.length ≡ false }
    requires space { has_ioas (objects_in table.now) file request.src_ioas ≡ true }
    ensures { result ≡ number_of (source_in (areas_at table.now.rows file request.src_ioas) request) }
{
    let Some(areas) = lookups::areas_of(table, file, request.src_ioas) else {
        // The file has the address space.
        unreachable!()
    };
    let Some(source) = source_in(areas, request) else {
        return None;
    };
    Some(source.memory)
}

/// Why the target with these areas refuses it, where the source is over the memory object of this number.
fn refusal_by_areas<A: Allocator>(
    state: &State<A>,
    file: FileNo,
    request: CopyRequest,
    areas: &Areas<A>,
    number: u64,
) -> Option<Cause>
    requires seeks { SeeksPlace state.now file (placed_as request) areas.now.areas }
    requires source { number_of (source_of (seen state.now) file request) ≡ Some number }
    ensures { result ≡ first_true (
        (Cause.Rights, is_writeable request.flags && not (is_source_writable (seen state.now) file request))
        ∷ place_checks (seen state.now) file (placed_as request)
        ++ (Cause.Absent, lacks_copied_page (seen state.now) file request)
        ∷ (Cause.Account, passes_limit_copied (seen state.now) file request)
        ∷ (Cause.Frames, lacks_mapped_frames (seen state.now) file (placed_as request))
        ∷ []) }
{
    let placed = placed_as(request);
    if lacks_right(state, file, request, number) {
        return Some(Cause::Rights);
    }
    if let Some(cause) = placing::refusal(state, file, placed, areas) {
        return Some(cause);
    }
    if lacks_page(state, file, request, number) {
        return Some(Cause::Absent);
    }
    if passes_limit(state, file, request, number) {
        return Some(Cause::Account);
    }
    if placing::lacks_frames(state, file, placed, areas) {
        return Some(Cause::Frames);
    }
    None
}

/// Whether it asks for the right to write, which the memory object doesn't have.
fn lacks_right<A: Allocator>(
    state: &State<A>,
    file: FileNo,
    request: CopyRequest,
    number: u64,
) -> bool
    requires { number_of (source_of (seen state.now) file request) ≡ Some number }
    ensures { result ≡ (is_writeable request.flags && not (is_source_writable (seen state.now) file request)) }
{
    if !request.flags.is_writeable() {
        return false;
    }
    !state.memory.is_writable(number)
}

/// Whether the target has a page table, and a page of the memory object isn't pinned, and isn't in its user's memory.
fn lacks_page<A: Allocator>(
    state: &State<A>,
    file: FileNo,
    request: CopyRequest,
    number: u64,
) -> bool
    requires known { IsKnown state.now }
    requires source { number_of (source_of (seen state.now) file request) ≡ Some number }
    ensures { result ≡ lacks_copied_page (seen state.now) file request }
{
    if !state.has_hwpt(file, request.dst_ioas) {
        return false;
    }
    state.memory.objects_told();
    state.memory.lacks_page(number)
}

/// Whether the target has a page table, and with the pages of the memory object that aren't pinned yet the file's user
/// would have more pinned pages than the limit allows.
fn passes_limit<A: Allocator>(
    state: &State<A>,
    file: FileNo,
    request: CopyRequest,
    number: u64,
) -> bool
    requires known { IsKnown state.now }
    requires source { number_of (source_of (seen state.now) file request) ≡ Some number }
    ensures { result ≡ passes_limit_copied (seen state.now) file request }
{
    if !state.has_hwpt(file, request.dst_ioas) {
        return false;
    }
    let count = u128::from(state.memory.new_pages(number));
    accounts::passes_limit(state, file, count)
}
