//! DIRTY_REPORT: which pages of a span were written, and whether their marks are taken away.

ghost use Rattle.std.specs.Prelude.{◌≡◌, ◌/◌, ◌||◌, ◌==◌, ◌&&◌, ℕ, List, None, nat_lt, not};
ghost use Rattle.iofd_refusals.specs.Checks.{dirty_checks};
ghost use Rattle.iofd_words.specs.Dirty.{reported_span};
ghost use Rattle.iofd_words.specs.FirstTrue.{first_true};
ghost use Rattle.iofd_steps.specs.Look.{lawful_answers, query_checks};
ghost use Rattle.iofd_words.specs.Objects.{is_hwpt_under};
ghost use Rattle.iofd_words.specs.Pages.{is_above_sum, is_whole};
ghost use Rattle.iofd_words.specs.Record.{Record};
ghost use Rattle.iofd_words.specs.View.{view};
ghost use Rattle.iofd_words.specs.World.{World};
ghost use Rattle.iofd_words.specs.declared.event.Event.TheVariants as event;
ghost use Rattle.iofd_words.specs.declared.query.Query.TheVariants as queries;
ghost use Rattle.server_state.specs.Choice.{IsLooked};
ghost use Rattle.server_state.specs.Held.{objects_in};
ghost use Rattle.server_state.specs.Seen.{seen};
ghost use Rattle.server_state.specs.Shows.{Shows};
ghost use Rattle.server_state.specs.Step.{IsAsked, IsGranted, IsKnown, IsTidy, Steps};

use iofd_words::{Answer, Cause, DirtyRequest, FileNo, ObjId, ObjectKind, PAGE_SIZE, Reply, Span};
use server_state::addresses::is_above_sum;
use server_state::{State, lookups};
use std::alloc::Allocator;

// How many pages a report tells at most.
const REPORT_PAGES: u64 = 256;

/// Why a report is refused, by the first row of the definitions that holds, whether it clears or not. None where
/// nothing refuses it.
///
/// Refused by 11 (ENOENT, `Cause::Id`) where the file isn't open or has no hardware page table of this id, then by 19
/// (EOVERFLOW, `Cause::Sum`) where the span ends above 2^64, then by 20 (EINVAL, `Cause::Align`) where it has no whole
/// pages alone, and then by 30 (EINVAL, `Cause::Tracking`) where the page table isn't tracked or the span has more than
/// 256 pages.
#[tactic(auto, unfolding(iofd_refusals::specs::Checks::dirty_checks))]
pub fn refusal<A: Allocator>(state: &State<A>, file: FileNo, request: DirtyRequest) -> Option<Cause>
    requires { IsKnown state.now }
    ensures { result ≡ first_true (dirty_checks (seen state.now) file request) }
{
    if !state.objects.is_open(file) {
        return Some(Cause::Id);
    }
    if !is_hwpt(state, file, request.hwpt) {
        return Some(Cause::Id);
    }
    if is_above_sum(request.iova.0, request.length) {
        return Some(Cause::Sum);
    }
    if request.length == 0 || !is_whole_pages(request) {
        return Some(Cause::Align);
    }
    if !state.dirty.is_tracked(file, request.hwpt) || request.length / PAGE_SIZE > REPORT_PAGES {
        return Some(Cause::Tracking);
    }
    None
}

/// Whether the file has an object of this id, and it is a hardware page table.
pub(crate) fn is_hwpt<A: Allocator>(state: &State<A>, file: FileNo, id: ObjId) -> bool
    ensures { result ≡ is_hwpt_under (objects_in state.now.objects) file id }
{
    matches!(
        lookups::kind_of(&state.objects, file, id),
        Some(ObjectKind::Hwpt { .. })
    )
}

fn is_whole_pages(request: DirtyRequest) -> bool
    ensures { result ≡ (is_whole request.length && is_whole request.iova.0) }
{
    request.length % PAGE_SIZE == 0 && request.iova.0 % PAGE_SIZE == 0
}

/// What a report is answered that clears, where nothing refuses it: the words by which the span's written pages are
/// told, whose marks go. It takes no memory.
pub fn commit<A: Allocator + Copy>(
    state: &mut State<A>,
    file: FileNo,
    request: DirtyRequest,
) -> Reply
    requires { IsGranted (event.DirtyClear file request) state.old }
    ensures { (at : ℕ) → Steps at (event.DirtyClear file request) state.old result state.new }
{
    let Some(span) = Span::of_length(request.iova.0, request.length) else {
        // It was refused.
        unreachable!()
    };
    Reply::Dirty(state.dirty.report_flagged(file, request.hwpt, span, true))
}

/// What a report is answered that doesn't clear, where nothing refuses it. It changes nothing.
pub fn report<A: Allocator>(state: &State<A>, file: FileNo, request: DirtyRequest) -> Answer
    requires { IsAsked (queries.Dirty file request) state.now }
    ensures { (at : ℕ) (w : World) (records : List (Record A)) → IsTidy at w → Shows w state.now
        → first_true (query_checks (view w) (queries.Dirty file request)) ≡ None
        → IsLooked (lawful_answers w records (queries.Dirty file request)) result }
{
    match Span::of_length(request.iova.0, request.length) {
        Some(span) => Answer::Dirty(state.dirty.report(file, request.hwpt, span)),
        // It was refused.
        None => unreachable!(),
    }
}
