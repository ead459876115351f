//! AccessPin: an access object pins pages of the address space to which it is attached.

ghost use Rattle.std.specs.Prelude.{◌≡◌, ◌∷◌, ◌/◌, ◌==◌, ◌&&◌, ◌||◌, [], None, Some, IfOk, not};
ghost use Rattle.iofd_steps.specs.After.{changed};
ghost use Rattle.iofd_words.specs.Accesses.{has_gap, lacks_accessed_page, meets_leaving, meets_without_right};
ghost use Rattle.iofd_words.specs.Areas.{areas_of};
ghost use Rattle.iofd_refusals.specs.Checks.{access_pin_checks, passes_limit_accessed, pin_checks_in, refusal};
ghost use Rattle.iofd_words.specs.FirstTrue.{first_true};
ghost use Rattle.iofd_words.specs.View.{view};
ghost use Rattle.iofd_words.specs.Objects.{access_ioas_of};
ghost use Rattle.iofd_words.specs.Pages.{is_whole};
ghost use Rattle.iofd_words.specs.Pins.{has_most_pins};
ghost use Rattle.iofd_words.specs.Span.{size_of};
ghost use Rattle.iofd_words.specs.declared.event.Event.TheVariants as event;
ghost use Rattle.iofd_words.specs.declared.reply.Reply.TheVariants as reply;
ghost use Rattle.journal_audit_world.specs.Kept.{IsKept};
ghost use Rattle.journal_audit_world.specs.Unwritten.{unwritten};

use crate::accounts::passes_limit;
use crate::asked::Asked;
use crate::gaps::has_gap;
use crate::gathering::gather;
use crate::under::{meets_leaving, meets_without_right};
use iofd_words::{AccessPin, Cause, FileNo, NoMemory, ObjId, PAGE_SIZE, PinRequest, Reply, Span};
use journal_audit_world::{World, access_pins, objects, pages};
use std::alloc::Allocator;

/// Why it is refused, if it is. Its only error is want of memory.
#[tactic(auto, unfolding(iofd_refusals::specs::Checks::access_pin_checks))]
pub fn refusal<A: Allocator + Copy>(
    alloc: A,
    at: u64,
    world: &World<A>,
    file: FileNo,
    id: ObjId,
    request: PinRequest,
) -> Result<Option<Cause>, NoMemory>
    requires kept { IsKept at world.now }
    ensures { IfOk result (λ cause. cause ≡ first_true (access_pin_checks (view world.now) file id request)) }
{
    if !world.is_open(file) {
        return Ok(Some(Cause::Id));
    }
    if !objects::has_access(&world.objects, file, id) {
        return Ok(Some(Cause::Id));
    }
    match objects::access_ioas_of(&world.objects, file, id) {
        Some(ioas) => refusal_in(alloc, at, world, file, id, ioas, request),
        None => Ok(Some(Cause::Unattached)),
    }
}

// Whether it asks for no page, or for parts of pages.
fn is_misaligned(request: PinRequest) -> bool
    ensures { result ≡ (request.length == 0 || not (is_whole request.length && is_whole request.iova.0)) }
{
    request.length == 0 || !(pages::is_whole(request.length) && pages::is_whole(request.iova.0))
}

// Why an access object that is attached to this address space is.
fn refusal_in<A: Allocator + Copy>(
    alloc: A,
    at: u64,
    world: &World<A>,
    file: FileNo,
    id: ObjId,
    ioas: ObjId,
    request: PinRequest,
) -> Result<Option<Cause>, NoMemory>
    requires kept { IsKept at world.now }
    ensures { IfOk result (λ cause. cause
        ≡ first_true (pin_checks_in (view world.now) file id request (Some ioas))) }
{
    if pages::is_above_sum(request.iova.0, request.length) {
        return Ok(Some(Cause::Sum));
    }
    if is_misaligned(request) {
        return Ok(Some(Cause::Align));
    }
    let asked = Asked::from(request.iova.0, request.length);
    let count = request.length / PAGE_SIZE;
    match refusal_by_areas(world, file, id, ioas, asked, count, request.write) {
        Some(cause) => Ok(Some(cause)),
        None => refusal_by_pages(alloc, at, world, file, ioas, asked),
    }
}

// Why it is by the areas under its span, which has so many pages, or by the pins that it holds.
fn refusal_by_areas<A: Allocator>(
    world: &World<A>,
    file: FileNo,
    id: ObjId,
    ioas: ObjId,
    asked: Asked,
    count: u64,
    write: bool,
) -> Option<Cause>
    requires { count ≡ size_of asked / 4096 }
    ensures { let w = world.now in result ≡ first_true (
        (Cause.Span, has_gap asked (areas_of w.areas file ioas))
        ∷ (Cause.Leaving, meets_leaving asked (areas_of w.areas file ioas))
        ∷ (Cause.Rights, meets_without_right asked write (areas_of w.areas file ioas))
        ∷ (Cause.Full, has_most_pins w.access_pins file id)
        ∷ []) }
{
    if has_gap(&world.areas, file, ioas, asked, count) {
        return Some(Cause::Span);
    }
    if meets_leaving(&world.areas, file, ioas, asked) {
        return Some(Cause::Leaving);
    }
    if meets_without_right(&world.areas, file, ioas, asked, write) {
        return Some(Cause::Rights);
    }
    if access_pins::has_most_pins(&world.access_pins, file, id) {
        return Some(Cause::Full);
    }
    None
}

// Why it is by its pages.
fn refusal_by_pages<A: Allocator + Copy>(
    alloc: A,
    at: u64,
    world: &World<A>,
    file: FileNo,
    ioas: ObjId,
    asked: Asked,
) -> Result<Option<Cause>, NoMemory>
    requires kept { IsKept at world.now }
    ensures { IfOk result (λ cause. cause ≡ first_true (
        (Cause.Absent, lacks_accessed_page (view world.now) file ioas asked)
        ∷ (Cause.Account, passes_limit_accessed (view world.now) file ioas asked)
        ∷ [])) }
{
    let found = gather(
        alloc,
        &world.areas,
        &world.pins,
        &world.memory,
        &world.user_pages,
        file,
        ioas,
        asked,
    )?;
    let Some(found) = found else {
        return Ok(Some(Cause::Absent));
    };
    if passes_limit(at, world, file, found.len()) {
        return Ok(Some(Cause::Account));
    }
    Ok(None)
}

/// What comes of it, where nothing refuses it, at this position: a pin more, and pins of the pages that weren't pinned.
/// Its only error is want of memory.
#[tactic(auto, unfolding(iofd_steps::specs::After::changed))]
pub fn change<A: Allocator + Copy>(
    alloc: A,
    at: u64,
    world: &mut World<A>,
    file: FileNo,
    id: ObjId,
    request: PinRequest,
    reply: Reply,
) -> Result<(), NoMemory>
    requires kept { IsKept at world.old }
    requires granted { refusal {A = A} world.old (event.AccessPin file id request) ≡ None }
    ensures { IfOk result (λ _. unwritten world.new
        ≡ unwritten (changed {A = A} at world.old (event.AccessPin file id request) reply)) }
{
    let Reply::Done = reply else {
        return Ok(());
    };
    let Some(ioas) = objects::access_ioas_of(&world.objects, file, id) else {
        // It is attached.
        unreachable!()
    };
    pin(alloc, at, world, file, id, ioas, request)
}

// The same of one that is attached to this address space.
#[tactic(auto, unfolding(iofd_steps::specs::After::changed))]
fn pin<A: Allocator + Copy>(
    alloc: A,
    at: u64,
    world: &mut World<A>,
    file: FileNo,
    id: ObjId,
    ioas: ObjId,
    request: PinRequest,
) -> Result<(), NoMemory>
    requires kept { IsKept at world.old }
    requires granted { refusal {A = A} world.old (event.AccessPin file id request) ≡ None }
    requires attached { access_ioas_of world.old.objects file id ≡ Some ioas }
    ensures { IfOk result (λ _. unwritten world.new
        ≡ unwritten (changed {A = A} at world.old (event.AccessPin file id request) reply.Done)) }
{
    let Some(span) = Span::of_length(request.iova.0, request.length) else {
        // It has some pages below 2^64.
        unreachable!()
    };
    let asked = Asked::from(request.iova.0, request.length);
    let found = gather(
        alloc,
        &world.areas,
        &world.pins,
        &world.memory,
        &world.user_pages,
        file,
        ioas,
        asked,
    )?;
    let Some(found) = found else {
        // Its pages are there.
        unreachable!()
    };
    world.pins.extend_from_slice(&found)?;
    world.access_pins.push(AccessPin {
        file,
        access: id,
        span,
        write: request.write,
    })?;
    Ok(())
}
