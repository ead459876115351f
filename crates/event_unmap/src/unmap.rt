//! UNMAP: areas go, or are on their way out until devices have flushed.

ghost use Rattle.std.specs.Prelude.{◌≡◌, ◌<◌, ◌≤◌, ◌^◌, ◌&&◌, ◌∷◌, [], ℕ, false, true};
ghost use Rattle.std.specs.Prelude.{length, not, None, IfOk, IfSome, IsSome, IsTrue, OnErr, Option};
ghost use Rattle.area_map_rows.specs.Areas.{bytes_of};
ghost use Rattle.event_unmap.specs.Lost.{loses_table};
ghost use Rattle.iofd_words.specs.Areas.{areas_meet, is_cut, is_everything, most_areas, unmapped_span};
ghost use Rattle.iofd_steps.specs.Answers.{waits};
ghost use Rattle.iofd_refusals.specs.Checks.{unmap_checks};
ghost use Rattle.iofd_words.specs.FirstTrue.{first_true};
ghost use Rattle.iofd_words.specs.Pages.{is_above_sum};
ghost use Rattle.iofd_words.specs.View.{view};
ghost use Rattle.iofd_words.specs.World.{World};
ghost use Rattle.iofd_words.specs.declared.event.Event.TheVariants as event;
ghost use Rattle.server_state.specs.Seen.{seen};
ghost use Rattle.server_state.specs.Held.{objects_in};
ghost use Rattle.server_state.specs.Shows.{Shows};
ghost use Rattle.server_state.specs.Step.{IsGranted, IsTidy, MovingSteps, ShowsSame};
ghost use Rattle.iofd_words.specs.Objects.{has_hwpt};
ghost use Rattle.iofd_words.specs.declared.numbers.FrameNo.{FrameNo};

use crate::{clearing, devices, idle, waiting};
use area_map::{Areas, Iter};
use iofd_words::{Cause, FileNo, FrameNo, NoMemory, Reply, Span, UnmapRequest};
use server_state::addresses::is_above_sum;
use server_state::{State, area_changes, lookups, release};
use std::alloc::Allocator;

/// Why it is refused, by the first row of the definitions that holds. None where nothing refuses it.
#[tactic(auto, unfolding(iofd_refusals::specs::Checks::unmap_checks))]
pub fn refusal<A: Allocator>(state: &State<A>, file: FileNo, request: UnmapRequest) -> Option<Cause>
    ensures { result ≡ first_true (unmap_checks (seen state.now) file request) }
{
    if !state.objects.is_open(file) {
        return Some(Cause::Id);
    }
    if is_above_sum(request.iova.0, request.length) {
        return Some(Cause::Sum);
    }
    let Some(span) = unmapped_span(request) else {
        return Some(Cause::Align);
    };
    let Some(areas) = lookups::areas_of(&state.objects, file, request.ioas) else {
        return Some(Cause::Id);
    };
    refusal_by_areas(request, span, areas)
}

/// Why the address space with these areas refuses it.
fn refusal_by_areas<A: Allocator>(
    request: UnmapRequest,
    span: Span,
    areas: &Areas<A>,
) -> Option<Cause>
    ensures { result ≡ first_true (
        (Cause.Span, not (is_everything request) && not (areas_meet span areas.now.areas))
        ∷ (Cause.Span, is_cut span areas.now.areas)
        ∷ []) }
{
    let (meets, cuts) = areas.meets_and_cuts(span);
    if !is_everything(request) && !meets {
        return Some(Cause::Span);
    }
    if cuts {
        return Some(Cause::Span);
    }
    None
}

/// What it does where nothing refuses it. In the page tables of the address space the pages of the areas that it names
/// lead nowhere from then on. Where a device still has to flush before all these areas may go, or an access object has
/// pinned pages of one, they are on their way out, with a try more, and the reply is EAGAIN, or EDEADLOCK after a
/// hundred tries; their tables stay. Else they go, with their memory objects and pins, the reply is how many bytes they
/// had, and the tables that no area needs any more give their frames back, which are listed by rising number.
///
/// The only error is want of memory for that list, where there is a page table over the address space, nothing is on
/// its way out and some table gives its frame back. It leaves the world as it was.
pub fn commit<A: Allocator>(
    state: &mut State<A>,
    file: FileNo,
    request: UnmapRequest,
    given: &mut Vec<FrameNo, A>,
) -> Result<Reply, NoMemory>
    requires granted { IsGranted (event.Unmap file request) state.old }
    requires none { given.old.items ≡ [] }
    ensures ok { IfOk result (λ reply. (at : ℕ) (via : Option FrameNo) →
        MovingSteps at (event.Unmap file request) via state.old reply [] given.new.items state.new) }
    ensures err { OnErr result (ShowsSame state.old state.new) }
    ensures none_err { OnErr result (given.new.items ≡ []) }
    ensures memory { OnErr result (IsTrue (has_hwpt (objects_in state.old.objects) file request.ioas)) }
    ensures pending { OnErr result ((at : ℕ) (w : World) → IsTidy at w → Shows w state.old →
        first_true (unmap_checks (view w) file request) ≡ None → waits w file request ≡ false) }
    ensures tables { OnErr result ((at : ℕ) (w : World) → IsTidy at w → Shows w state.old →
        first_true (unmap_checks (view w) file request) ≡ None → loses_table w file request ≡ true) }
{
    let Some(span) = unmapped_span(request) else {
        // It was refused.
        unreachable!()
    };
    let ioas = request.ioas;
    let Some(attached) = devices::attached_to(state, file, ioas) else {
        // Each attached device is one of the configuration.
        unreachable!()
    };
    let translated = state.has_hwpt(file, ioas);
    // It is within its limits: so there are few page tables.
    state.config.facts();
    let Some(areas) = lookups::areas_of(&state.objects, file, ioas) else {
        // It was refused.
        unreachable!()
    };
    let met = areas.within(span);
    let pins = &state.access_pins;
    let waits = area_changes::some_waits(met.again(), &attached, file, ioas, pins);
    let (page_tables, pool) = (&state.page_tables, &state.pool);
    idle::reserve_given(
        page_tables,
        pool,
        file,
        ioas,
        areas,
        span,
        translated,
        waits,
        given,
    )?;
    clearing::clear(
        met.again(),
        file,
        ioas,
        &mut state.page_tables,
        &mut state.pool,
    );
    if waits {
        let most = areas.most_tries(span);
        return Ok(waiting::wait(&mut state.objects, file, ioas, span, &attached, most));
    }
    let bytes = bytes_of(met.again());
    release::remove(met, translated, &mut state.memory, &mut state.pool);
    idle::give_back(
        areas,
        file,
        ioas,
        span,
        &mut state.page_tables,
        &mut state.pool,
        given,
    );
    area_changes::remove(&mut state.objects, file, ioas, span);
    Ok(Reply::Bytes(bytes))
}

/// How many bytes the areas have: at most 65,535 areas of at most 2^48 bytes.
fn bytes_of<A: Allocator>(areas: Iter<'_, A>) -> u64
    requires few { length areas ≤ most_areas }
    requires fit { bytes_of areas < 2 ^ 64 }
    ensures { result ≡ bytes_of areas.entry }
{
    areas.bytes() as u64
}

/// Whether it names every address, the last one too.
fn is_everything(request: UnmapRequest) -> bool
    ensures { result ≡ is_everything request }
{
    request.iova.0 == 0 && request.length == u64::MAX
}

/// The span that it names. None where it names no address, or one above 2^64 - 1.
fn unmapped_span(request: UnmapRequest) -> Option<Span>
    ensures value { IfSome result (λ span. span ≡ unmapped_span request) }
    ensures some { 0 < request.length → is_above_sum request.iova.0 request.length ≡ false → IsSome result }
    ensures none { IsSome result → 0 < request.length }
{
    if is_everything(request) {
        return Span::new(0, u64::MAX);
    }
    Span::of_length(request.iova.0, request.length)
}
