//! MAP: pages of a user's memory are mapped in an address space.

ghost use Rattle.std.specs.Prelude.{◌≡◌, None, Some, IfOk};
ghost use Rattle.iofd_steps.specs.After.{changed, memory_object};
ghost use Rattle.iofd_steps.specs.Answers.{Answers};
ghost use Rattle.iofd_refusals.specs.Checks.{map_checks, refusal};
ghost use Rattle.iofd_words.specs.Files.{user_of};
ghost use Rattle.iofd_words.specs.FirstTrue.{first_true};
ghost use Rattle.iofd_words.specs.View.{view};
ghost use Rattle.iofd_words.specs.declared.event.Event.TheVariants as event;
ghost use Rattle.iofd_words.specs.declared.reply.Reply.TheVariants as reply;
ghost use Rattle.journal_audit.specs.Rows.{map_pages, map_words};
ghost use Rattle.journal_audit_world.specs.Decides.{Decides};
ghost use Rattle.journal_audit_world.specs.Kept.{IsKept};
ghost use Rattle.journal_audit_world.specs.Unwritten.{unwritten};

use crate::pinning::{pins_in, pins_of_new};
use crate::{placing, words};
use iofd_words::{
    Area, Cause, FileNo, Iova, MapRequest, MemoryObject, NoMemory, PAGE_SIZE, Phase, Reply, Span,
    UserNo,
};
use journal_audit_maps::accounts::passes_limit;
use journal_audit_world::{World, objects, pages};
use std::alloc::Allocator;

// ---- refusals

// Why the request's words refuse it.
#[tactic(auto, unfolding(crate::specs::Rows::map_words))]
fn refusal_by_words<A: Allocator>(
    world: &World<A>,
    file: FileNo,
    request: MapRequest,
) -> Option<Cause>
    ensures { result ≡ first_true (map_words (view world.now) file request) }
{
    if !world.is_open(file) {
        return Some(Cause::Id);
    }
    if words::gives_no_right(request.flags) {
        return Some(Cause::NoRight);
    }
    if words::is_above(request.flags, request.user_va, request.iova, request.length) {
        return Some(Cause::Sum);
    }
    if words::is_in_page(request.user_va, request.length) {
        return Some(Cause::Align);
    }
    if words::is_fixed_in_page(request.flags, request.iova) {
        return Some(Cause::Align);
    }
    if pages::is_above_user(request.user_va, request.length) {
        return Some(Cause::Absent);
    }
    if !objects::has_ioas(&world.objects, file, request.ioas) {
        return Some(Cause::Id);
    }
    None
}

// Why its pages refuse it: one that has to be pinned isn't there, or the user would have too many.
#[tactic(auto, unfolding(crate::specs::Rows::map_pages))]
fn refusal_by_pages<A: Allocator + Copy>(
    alloc: A,
    at: u64,
    world: &World<A>,
    file: FileNo,
    request: MapRequest,
) -> Result<Option<Cause>, NoMemory>
    requires kept { IsKept at world.now }
    ensures { IfOk result (λ cause. cause ≡ first_true (map_pages (view world.now) file request)) }
{
    if !objects::has_hwpt(&world.objects, file, request.ioas) {
        return Ok(None);
    }
    let Some(user) = world.config.user_of(file) else {
        return Ok(Some(Cause::Absent));
    };
    let object = object_of(at, user, request);
    let pins = pins_of_new(alloc, &world.user_pages, object)?;
    if pins.is_none() {
        return Ok(Some(Cause::Absent));
    }
    if passes_limit(at, world, file, (request.length / PAGE_SIZE) as usize) {
        return Ok(Some(Cause::Account));
    }
    Ok(None)
}

/// Why it is refused, if it is. Its only error is want of memory.
pub fn refusal<A: Allocator + Copy>(
    alloc: A,
    at: u64,
    world: &World<A>,
    file: FileNo,
    request: MapRequest,
) -> Result<Option<Cause>, NoMemory>
    requires kept { IsKept at world.now }
    ensures { IfOk result (λ cause. cause ≡ first_true (map_checks (view world.now) file request)) }
{
    if let Some(cause) = refusal_by_words(world, file, request) {
        return Ok(Some(cause));
    }
    if let Some(cause) = placing::refusal(alloc, world, file, request)? {
        return Ok(Some(cause));
    }
    if let Some(cause) = refusal_by_pages(alloc, at, world, file, request)? {
        return Ok(Some(cause));
    }
    if placing::lacks_frames(alloc, world, file, request)? {
        return Ok(Some(Cause::Frames));
    }
    Ok(None)
}

// ---- answers

/// Whether the answer is a lawful one: the fixed address, or one that may be chosen.
#[tactic(auto, unfolding(iofd_steps::specs::Answers::Answers))]
pub fn may_answer<A: Allocator + Copy>(
    alloc: A,
    world: &World<A>,
    file: FileNo,
    request: MapRequest,
    reply: Reply,
) -> Result<bool, NoMemory>
    ensures { IfOk result (λ may. Decides may (Answers {A = A} world.now (event.Map file request) reply)) }
{
    match reply {
        Reply::Iova(iova) => placing::may_lie_at(alloc, world, file, request, iova),
        _ => Ok(false),
    }
}

// ---- what comes of it

// The memory object that it makes.
fn object_of(at: u64, user: UserNo, request: MapRequest) -> MemoryObject
    ensures { result ≡ memory_object at user request }
{
    MemoryObject {
        number: at,
        user,
        va: request.user_va,
        count: request.length / PAGE_SIZE,
        writable: request.flags.is_writeable(),
    }
}

/// What comes of it, where nothing refuses it and the answer is lawful, at this position: a memory object, an area over
/// it, and pins of its pages where a page table is over the address space. Its only error is want of memory.
#[tactic(auto, unfolding(iofd_steps::specs::After::changed))]
pub fn change<A: Allocator + Copy>(
    alloc: A,
    at: u64,
    world: &mut World<A>,
    file: FileNo,
    request: MapRequest,
    reply: Reply,
) -> Result<(), NoMemory>
    requires kept { IsKept at world.old }
    requires granted { refusal {A = A} world.old (event.Map file request) ≡ None }
    requires answered { Answers {A = A} world.old (event.Map file request) reply }
    ensures { IfOk result (λ _. unwritten world.new
        ≡ unwritten (changed {A = A} at world.old (event.Map file request) reply)) }
{
    let Reply::Iova(iova) = reply else {
        return Ok(());
    };
    let Some(user) = world.config.user_of(file) else {
        return Ok(());
    };
    map_at(alloc, at, world, file, request, iova, user)
}

// The same at this address, by a file of this user.
fn map_at<A: Allocator + Copy>(
    alloc: A,
    at: u64,
    world: &mut World<A>,
    file: FileNo,
    request: MapRequest,
    iova: Iova,
    user: UserNo,
) -> Result<(), NoMemory>
    requires kept { IsKept at world.old }
    requires granted { refusal {A = A} world.old (event.Map file request) ≡ None }
    requires answered { Answers {A = A} world.old (event.Map file request) (reply.Iova iova) }
    requires known { user_of world.old.settings file ≡ Some user }
    ensures { IfOk result (λ _. unwritten world.new
        ≡ unwritten (changed {A = A} at world.old (event.Map file request) (reply.Iova iova))) }
{
    let Some(span) = Span::of_length(iova.0, request.length) else {
        // It has some addresses, and ends by 2^64.
        unreachable!()
    };
    let object = object_of(at, user, request);
    let Some(pins) = pins_in(alloc, world, file, request.ioas, object)? else {
        // Its pages are there.
        unreachable!()
    };
    world.pins.extend_from_slice(&pins)?;
    world.memory.push(object)?;
    let area = Area {
        file,
        ioas: request.ioas,
        span,
        memory: at,
        rights: request.flags.rights(),
        phase: Phase::Live,
    };
    placing::add_area(&mut world.areas, area)?;
    Ok(())
}
