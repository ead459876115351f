//! HWPT_ALLOC: a hardware page table of a device's width over an address space.

ghost use Rattle.std.specs.Prelude.{◌≡◌, ◌∷◌, [], None, IfOk, is_none, not};
ghost use Rattle.iofd_steps.specs.After.{changed};
ghost use Rattle.iofd_steps.specs.Answers.{Answers};
ghost use Rattle.iofd_refusals.specs.Checks as words;
ghost use Rattle.iofd_refusals.specs.Checks.{hwpt_alloc_checks, lacks_attached_page, passes_limit_attached};
ghost use Rattle.iofd_words.specs.FirstTrue.{first_true};
ghost use Rattle.iofd_words.specs.Objects.{device_under, has_ioas, is_full, settings_under};
ghost use Rattle.iofd_words.specs.View.{view};
ghost use Rattle.iofd_words.specs.declared.event.Event.TheVariants as event;
ghost use Rattle.journal_audit_world.specs.Kept.{IsKept};
ghost use Rattle.journal_audit_world.specs.Unwritten.{unwritten};

use crate::narrowing::narrows_by_width;
use crate::pinning::{add_page_table, refusal_by_pages};
use crate::rows::{lacks_new_tables, waits_for_leaving};
use crate::widths::width_under;
use iofd_words::{Cause, FileNo, HwptRequest, NoMemory, Reply};
use journal_audit_tables::coming;
use journal_audit_world::{World, objects};
use std::alloc::Allocator;

/// Why it is refused, if it is. Its only error is want of memory.
#[tactic(auto, unfolding(iofd_refusals::specs::Checks::hwpt_alloc_checks))]
pub fn refusal<A: Allocator + Copy>(
    alloc: A,
    at: u64,
    world: &World<A>,
    file: FileNo,
    request: HwptRequest,
) -> Result<Option<Cause>, NoMemory>
    requires kept { IsKept at world.now }
    ensures { IfOk result (λ cause. cause ≡ first_true (hwpt_alloc_checks (view world.now) file request)) }
{
    match refusal_by_objects(alloc, world, file, request)? {
        Some(cause) => Ok(Some(cause)),
        None => refusal_by_frames(alloc, at, world, file, request),
    }
}

// Why it is by what the file has, and by what its address space can use.
fn refusal_by_objects<A: Allocator + Copy>(
    alloc: A,
    world: &World<A>,
    file: FileNo,
    request: HwptRequest,
) -> Result<Option<Cause>, NoMemory>
    ensures { let v = view world.now in IfOk result (λ cause. cause ≡ first_true (
        (Cause.Id, not (v.is_open file))
        ∷ (Cause.Id, is_none (device_under v.objects file request.device))
        ∷ (Cause.Id, not (has_ioas v.objects file request.ioas))
        ∷ (Cause.Pending, words.waits_for_leaving v file request.ioas)
        ∷ (
          Cause.Narrow,
          words.narrows_by_width v file request.ioas
              (settings_under v.settings v.objects file request.device),
        )
        ∷ (Cause.Full, is_full v.objects file)
        ∷ [])) }
{
    if !world.is_open(file) {
        return Ok(Some(Cause::Id));
    }
    if coming::device_under(&world.objects, file, request.device).is_none() {
        return Ok(Some(Cause::Id));
    }
    if !objects::has_ioas(&world.objects, file, request.ioas) {
        return Ok(Some(Cause::Id));
    }
    if waits_for_leaving(world, file, request.ioas) {
        return Ok(Some(Cause::Pending));
    }
    if narrows_by_width(alloc, world, file, request.ioas, request.device)? {
        return Ok(Some(Cause::Narrow));
    }
    if objects::is_full(&world.objects, file) {
        return Ok(Some(Cause::Full));
    }
    Ok(None)
}

// Why it is by the pages that it pins, and by the frames that it takes.
fn refusal_by_frames<A: Allocator + Copy>(
    alloc: A,
    at: u64,
    world: &World<A>,
    file: FileNo,
    request: HwptRequest,
) -> Result<Option<Cause>, NoMemory>
    requires kept { IsKept at world.now }
    ensures { let v = view world.now in IfOk result (λ cause. cause ≡ first_true (
        (Cause.Absent, lacks_attached_page v file request.ioas)
        ∷ (Cause.Account, passes_limit_attached v file request.ioas)
        ∷ (
          Cause.Frames,
          words.lacks_new_tables v file request.ioas
              (settings_under v.settings v.objects file request.device),
        )
        ∷ [])) }
{
    if let Some(cause) = refusal_by_pages(alloc, at, world, file, request.ioas)? {
        return Ok(Some(cause));
    }
    if lacks_new_tables(alloc, world, file, request.ioas, request.device)? {
        return Ok(Some(Cause::Frames));
    }
    Ok(None)
}

/// What comes of it, where nothing refuses it, at this position, with a lawful answer. Its only error is want of
/// memory.
#[tactic(auto, unfolding(iofd_steps::specs::After::changed))]
pub fn change<A: Allocator + Copy>(
    alloc: A,
    at: u64,
    world: &mut World<A>,
    file: FileNo,
    request: HwptRequest,
    reply: Reply,
) -> Result<(), NoMemory>
    requires kept { IsKept at world.old }
    requires granted { words.refusal {A = A} world.old (event.HwptAlloc file request) ≡ None }
    requires answered { Answers {A = A} world.old (event.HwptAlloc file request) reply }
    ensures { IfOk result (λ _. unwritten world.new
        ≡ unwritten (changed {A = A} at world.old (event.HwptAlloc file request) reply)) }
{
    let Reply::Id(id) = reply else {
        return Ok(());
    };
    let Some(width) = width_under(world, file, request.device) else {
        return Ok(());
    };
    add_page_table(alloc, at, world, file, request.ioas, id, width, false)
}
