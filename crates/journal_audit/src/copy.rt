//! COPY: the memory of an area is mapped once more.

ghost use Rattle.std.specs.Prelude.{◌≡◌, None, Some, IfOk};
ghost use Rattle.iofd_steps.specs.After.{changed};
ghost use Rattle.iofd_steps.specs.Answers.{Answers};
ghost use Rattle.iofd_refusals.specs.Checks.{copy_checks, refusal};
ghost use Rattle.iofd_words.specs.FirstTrue.{first_true};
ghost use Rattle.iofd_words.specs.View.{view};
ghost use Rattle.iofd_words.specs.declared.event.Event.TheVariants as event;
ghost use Rattle.iofd_words.specs.declared.reply.Reply.TheVariants as reply;
ghost use Rattle.journal_audit.specs.Rows.{copy_pages, copy_source, copy_words};
ghost use Rattle.journal_audit_world.specs.Decides.{Decides};
ghost use Rattle.journal_audit_world.specs.Kept.{IsKept};
ghost use Rattle.journal_audit_world.specs.Unwritten.{unwritten};

use crate::pinning::{pins_of_shared, shared_pins_in};
use crate::source::{is_writable, placed_as, source_of};
use crate::{placing, words};
use iofd_words::{Area, Cause, CopyRequest, FileNo, Iova, NoMemory, Phase, Reply, Span};
use journal_audit_maps::accounts::passes_limit;
use journal_audit_world::{World, objects};
use std::alloc::Allocator;

// ---- refusals

// Why the request's words refuse it.
#[tactic(auto, unfolding(crate::specs::Rows::copy_words))]
fn refusal_by_words<A: Allocator>(
    world: &World<A>,
    file: FileNo,
    request: CopyRequest,
) -> Option<Cause>
    ensures { result ≡ first_true (copy_words (view world.now) file request) }
{
    if !world.is_open(file) {
        return Some(Cause::Id);
    }
    if words::gives_no_right(request.flags) {
        return Some(Cause::NoRight);
    }
    if words::is_above(
        request.flags,
        request.src_iova.0,
        request.dst_iova,
        request.length,
    ) {
        return Some(Cause::Sum);
    }
    if words::is_in_page(request.src_iova.0, request.length) {
        return Some(Cause::Align);
    }
    if words::is_fixed_in_page(request.flags, request.dst_iova) {
        return Some(Cause::Align);
    }
    if !objects::has_ioas(&world.objects, file, request.dst_ioas) {
        return Some(Cause::Id);
    }
    if !objects::has_ioas(&world.objects, file, request.src_ioas) {
        return Some(Cause::Id);
    }
    None
}

// Why its source refuses it: there is none, or its memory may not be written and the copy may.
#[tactic(auto, unfolding(crate::specs::Rows::copy_source))]
fn refusal_by_source<A: Allocator>(
    world: &World<A>,
    file: FileNo,
    request: CopyRequest,
) -> Option<Cause>
    ensures { result ≡ first_true (copy_source (view world.now) file request) }
{
    let Some(source) = source_of(&world.areas, file, request) else {
        return Some(Cause::Span);
    };
    if request.flags.is_writeable() && !is_writable(&world.memory, source.memory) {
        return Some(Cause::Rights);
    }
    None
}

// Why its pages refuse it: one that has to be pinned isn't there, or the user would have too many.
#[tactic(auto, unfolding(crate::specs::Rows::copy_pages))]
fn refusal_by_pages<A: Allocator + Copy>(
    alloc: A,
    at: u64,
    world: &World<A>,
    file: FileNo,
    request: CopyRequest,
) -> Result<Option<Cause>, NoMemory>
    requires kept { IsKept at world.now }
    requires sourced { first_true (copy_source (view world.now) file request) ≡ None }
    ensures { IfOk result (λ cause. cause ≡ first_true (copy_pages (view world.now) file request)) }
{
    if !objects::has_hwpt(&world.objects, file, request.dst_ioas) {
        return Ok(None);
    }
    let Some(source) = source_of(&world.areas, file, request) else {
        // There is one.
        unreachable!()
    };
    let Some(pins) = pins_of_shared(alloc, &world.pins, &world.memory, &world.user_pages, source)?
    else {
        return Ok(Some(Cause::Absent));
    };
    if passes_limit(at, world, file, pins.len()) {
        return Ok(Some(Cause::Account));
    }
    Ok(None)
}

/// Why it is refused, if it is. Its only error is want of memory.
pub fn refusal<A: Allocator + Copy>(
    alloc: A,
    at: u64,
    world: &World<A>,
    file: FileNo,
    request: CopyRequest,
) -> Result<Option<Cause>, NoMemory>
    requires kept { IsKept at world.now }
    ensures { IfOk result (λ cause. cause ≡ first_true (copy_checks (view world.now) file request)) }
{
    if let Some(cause) = refusal_by_words(world, file, request) {
        return Ok(Some(cause));
    }
    if let Some(cause) = refusal_by_source(world, file, request) {
        return Ok(Some(cause));
    }
    let placed = placed_as(request);
    if let Some(cause) = placing::refusal(alloc, world, file, placed)? {
        return Ok(Some(cause));
    }
    if let Some(cause) = refusal_by_pages(alloc, at, world, file, request)? {
        return Ok(Some(cause));
    }
    if placing::lacks_frames(alloc, world, file, placed)? {
        return Ok(Some(Cause::Frames));
    }
    Ok(None)
}

// ---- answers

/// Whether the answer is a lawful one: the fixed address, or one that may be chosen.
#[tactic(auto, unfolding(iofd_steps::specs::Answers::Answers))]
pub fn may_answer<A: Allocator + Copy>(
    alloc: A,
    world: &World<A>,
    file: FileNo,
    request: CopyRequest,
    reply: Reply,
) -> Result<bool, NoMemory>
    ensures { IfOk result (λ may. Decides may (Answers {A = A} world.now (event.Copy file request) reply)) }
{
    match reply {
        Reply::Iova(iova) => placing::may_lie_at(alloc, world, file, placed_as(request), iova),
        _ => Ok(false),
    }
}

// ---- what comes of it

/// What comes of it, where nothing refuses it and the answer is lawful, at this position: an area over the memory
/// object of its source, and pins of the pages that weren't pinned where a page table is over the address space. Its
/// only error is want of memory.
#[tactic(auto, unfolding(iofd_steps::specs::After::changed))]
pub fn change<A: Allocator + Copy>(
    alloc: A,
    at: u64,
    world: &mut World<A>,
    file: FileNo,
    request: CopyRequest,
    reply: Reply,
) -> Result<(), NoMemory>
    requires kept { IsKept at world.old }
    requires granted { refusal {A = A} world.old (event.Copy file request) ≡ None }
    requires answered { Answers {A = A} world.old (event.Copy file request) reply }
    ensures { IfOk result (λ _. unwritten world.new
        ≡ unwritten (changed {A = A} at world.old (event.Copy file request) reply)) }
{
    let Reply::Iova(iova) = reply else {
        return Ok(());
    };
    copy_at(alloc, at, world, file, request, iova)
}

// The same at this address.
fn copy_at<A: Allocator + Copy>(
    alloc: A,
    at: u64,
    world: &mut World<A>,
    file: FileNo,
    request: CopyRequest,
    iova: Iova,
) -> Result<(), NoMemory>
    requires kept { IsKept at world.old }
    requires granted { refusal {A = A} world.old (event.Copy file request) ≡ None }
    requires answered { Answers {A = A} world.old (event.Copy file request) (reply.Iova iova) }
    ensures { IfOk result (λ _. unwritten world.new
        ≡ unwritten (changed {A = A} at world.old (event.Copy file request) (reply.Iova iova))) }
{
    let Some(span) = Span::of_length(iova.0, request.length) else {
        // It has some addresses, and ends by 2^64.
        unreachable!()
    };
    let Some(source) = source_of(&world.areas, file, request) else {
        // There is one.
        unreachable!()
    };
    let memory = source.memory;
    let Some(pins) = shared_pins_in(alloc, world, file, request.dst_ioas, source)? else {
        // Its pages are there.
        unreachable!()
    };
    world.pins.extend_from_slice(&pins)?;
    let area = Area {
        file,
        ioas: request.dst_ioas,
        span,
        memory,
        rights: request.flags.rights(),
        phase: Phase::Live,
    };
    placing::add_area(&mut world.areas, area)?;
    Ok(())
}
