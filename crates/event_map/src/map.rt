//! MAP: pages of a user's memory at a fixed address, or at one that the server chooses.

ghost use Rattle.std.specs.Prelude.{◌≡◌, ◌&&◌, IfOk, OnErr, Option, [], ◌∷◌, ◌++◌};
ghost use Rattle.iofd_steps.specs.After.{memory_object};
ghost use Rattle.iofd_refusals.specs.Checks.{lacks_mapped_frames, lacks_mapped_page, map_checks, passes_limit_mapped};
ghost use Rattle.iofd_words.specs.FirstTrue.{first_true};
ghost use Rattle.iofd_words.specs.Pages.{is_above_user, is_whole};
ghost use Rattle.iofd_words.specs.declared.event.Event.TheVariants as event;
ghost use Rattle.iofd_words.specs.declared.numbers.FrameNo.{FrameNo};
ghost use Rattle.event_map.specs.Place.{SeeksPlace, place_checks};
ghost use Rattle.server_state.specs.Seen.{seen};
ghost use Rattle.server_state.specs.Step.{IsGrantedAt, IsKnown, MovingSteps, TidyShowsSame};

use crate::{mapping, placing};
use area_map::Areas;
use iofd_words::{
    Cause, FileNo, FrameNo, Iova, MapRequest, MemoryObject, NoMemory, PAGE_SIZE, Reply, USER_END,
    UserNo,
};
use server_state::addresses::is_above_sum;
use server_state::{State, accounts, area_changes, lookups};
use std::alloc::Allocator;

/// Why it is refused, by the first row of the definitions that holds. None where nothing refuses it.
#[tactic(auto, unfolding(iofd_refusals::specs::Checks::map_checks))]
pub fn refusal<A: Allocator>(state: &State<A>, file: FileNo, request: MapRequest) -> Option<Cause>
    requires { IsKnown state.now }
    ensures { result ≡ first_true (map_checks (seen state.now) file request) }
{
    if !state.objects.is_open(file) {
        return Some(Cause::Id);
    }
    if !placing::gives_right(request.flags) {
        return Some(Cause::NoRight);
    }
    if is_above_sum(request.user_va, request.length)
        || placing::has_fixed_sum_above(request.flags, request.iova, request.length)
    {
        return Some(Cause::Sum);
    }
    if request.length == 0 || !are_pages_of_user(request) {
        return Some(Cause::Align);
    }
    if placing::is_fixed_in_page(request.flags, request.iova) {
        return Some(Cause::Align);
    }
    if is_above_user(request.user_va, request.length) {
        return Some(Cause::Absent);
    }
    let Some(areas) = lookups::areas_of(&state.objects, file, request.ioas) else {
        return Some(Cause::Id);
    };
    refusal_by_areas(state, file, request, areas)
}

/// What it does where nothing refuses it: the area comes, with a memory object whose number is `at`, the position
/// of the record. Where page tables translate the area its pages are pinned, and mapped in each of them: the tables
/// that they lack are in the least free frames, which are named in `taken`, empty before. An address that isn't fixed
/// is the least that may be chosen.
///
/// The only error is want of memory. It leaves the world as it was.
pub fn commit<A: Allocator + Copy>(
    state: &mut State<A>,
    at: u64,
    file: FileNo,
    request: MapRequest,
    taken: &mut Vec<FrameNo, A>,
) -> Result<Reply, NoMemory>
    requires granted { IsGrantedAt at (event.Map file request) state.old }
    requires empty { taken.old.items ≡ [] }
    ensures ok { IfOk result (λ reply. (via : Option FrameNo) →
        MovingSteps at (event.Map file request) via state.old reply taken.new.items [] state.new) }
    ensures err { OnErr result (TidyShowsSame at state.old state.new) }
    ensures none { OnErr result (taken.new.items ≡ []) }
{
    // Nothing refuses it: so the file has a user, and there is a place.
    let Some(user) = accounts::user_of(&state.config, file) else {
        unreachable!()
    };
    let Some(span) = placing::place_of(state, file, request) else {
        unreachable!()
    };
    let area = placing::mapped_area(at, file, request, span);
    let object = memory_object(at, user, request);
    let pinned = state.has_hwpt(file, request.ioas);
    let count = state.tables_to_map(file, request.ioas, span);
    taken.reserve(count as usize)?;
    area_changes::reserve(&mut state.objects, file, request.ioas)?;
    state.memory.add(&mut state.pool, object, pinned)?;
    mapping::map_area(state, &area, pinned, taken);
    area_changes::insert(&mut state.objects, file, request.ioas, area);
    state.pool.facts();
    Ok(Reply::Iova(Iova(span.first())))
}

fn memory_object(at: u64, user: UserNo, request: MapRequest) -> MemoryObject
    ensures { result ≡ memory_object at user request }
{
    MemoryObject {
        number: at,
        user,
        va: request.user_va,
        count: request.length / PAGE_SIZE,
        writable: request.flags.is_writeable(),
    }
}

/// Why the address space with these areas refuses it.
fn refusal_by_areas<A: Allocator>(
    state: &State<A>,
    file: FileNo,
    request: MapRequest,
    areas: &Areas<A>,
) -> Option<Cause>
    requires { SeeksPlace state.now file request areas.now.areas }
    ensures { result ≡ first_true (
        place_checks (seen state.now) file request
        ++ (Cause.Absent, lacks_mapped_page (seen state.now) file request)
        ∷ (Cause.Account, passes_limit_mapped (seen state.now) file request)
        ∷ (Cause.Frames, lacks_mapped_frames (seen state.now) file request)
        ∷ []) }
{
    if let Some(cause) = placing::refusal(state, file, request, areas) {
        return Some(cause);
    }
    if lacks_page(state, file, request) {
        return Some(Cause::Absent);
    }
    if passes_limit(state, file, request) {
        return Some(Cause::Account);
    }
    if placing::lacks_frames(state, file, request, areas) {
        return Some(Cause::Frames);
    }
    None
}

/// Whether the length and the user's address are of whole pages.
fn are_pages_of_user(request: MapRequest) -> bool
    ensures { result ≡ (is_whole request.length && is_whole request.user_va) }
{
    request.length % PAGE_SIZE == 0 && request.user_va % PAGE_SIZE == 0
}

/// Whether start plus length is above 2^48, where user addresses end.
fn is_above_user(start: u64, length: u64) -> bool
    ensures { result ≡ is_above_user start length }
{
    u128::from(start) + u128::from(length) > u128::from(USER_END)
}

/// Whether the address space has a page table, and a page is not in the memory of the file's user.
fn lacks_page<A: Allocator>(state: &State<A>, file: FileNo, request: MapRequest) -> bool
    requires { IsKnown state.now }
    ensures { result ≡ lacks_mapped_page (seen state.now) file request }
{
    if !state.has_hwpt(file, request.ioas) {
        return false;
    }
    match state.config.user_of(file) {
        Some(user) => {
            let count = request.length / PAGE_SIZE;
            !state.memory.has_pages(user, request.user_va, count)
        }
        None => true,
    }
}

/// Whether the address space has a page table, and with its pages the file's user would have more pinned pages than the
/// limit allows.
fn passes_limit<A: Allocator>(state: &State<A>, file: FileNo, request: MapRequest) -> bool
    requires { IsKnown state.now }
    ensures { result ≡ passes_limit_mapped (seen state.now) file request }
{
    if !state.has_hwpt(file, request.ioas) {
        return false;
    }
    let count = u128::from(request.length / PAGE_SIZE);
    accounts::passes_limit(state, file, count)
}
