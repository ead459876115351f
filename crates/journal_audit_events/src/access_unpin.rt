//! AccessUnpin: an access object lets a pin go.

ghost use Rattle.std.specs.Prelude.{◌≡◌, None, IfOk};
ghost use Rattle.iofd_steps.specs.After.{changed};
ghost use Rattle.iofd_refusals.specs.Checks.{access_unpin_checks, refusal};
ghost use Rattle.iofd_words.specs.FirstTrue.{first_true};
ghost use Rattle.iofd_words.specs.View.{view};
ghost use Rattle.iofd_words.specs.declared.event.Event.TheVariants as event;
ghost use Rattle.journal_audit_world.specs.Kept.{IsKept};
ghost use Rattle.journal_audit_world.specs.Unwritten.{unwritten};

use iofd_words::{Cause, FileNo, NoMemory, ObjId, PinRequest, Reply};
use journal_audit_world::{Numbers, World, access_pins, keeping, objects, over};
use std::alloc::Allocator;

/// Why it is refused, if it is.
#[tactic(auto, unfolding(iofd_refusals::specs::Checks::access_unpin_checks))]
pub fn refusal<A: Allocator>(
    world: &World<A>,
    file: FileNo,
    id: ObjId,
    request: PinRequest,
) -> Option<Cause>
    ensures { result ≡ first_true (access_unpin_checks (view world.now) file id request) }
{
    if !world.is_open(file) {
        return Some(Cause::Id);
    }
    if !objects::has_access(&world.objects, file, id) {
        return Some(Cause::Id);
    }
    if objects::access_ioas_of(&world.objects, file, id).is_none() {
        return Some(Cause::Unattached);
    }
    if !access_pins::is_held(&world.access_pins, file, id, request) {
        return Some(Cause::NotHeld);
    }
    None
}

/// What comes of it, where nothing refuses it, at this position: pages that nothing else pins aren't pinned any more.
/// Its only error is want of memory.
#[tactic(auto, unfolding(iofd_steps::specs::After::changed))]
pub fn change<A: Allocator + Copy>(
    alloc: A,
    at: u64,
    world: &mut World<A>,
    file: FileNo,
    id: ObjId,
    request: PinRequest,
    reply: Reply,
) -> Result<(), NoMemory>
    requires kept { IsKept at world.old }
    requires granted { refusal {A = A} world.old (event.AccessUnpin file id request) ≡ None }
    ensures { IfOk result (λ _. unwritten world.new
        ≡ unwritten (changed {A = A} at world.old (event.AccessUnpin file id request) reply)) }
{
    let Reply::Done = reply else {
        return Ok(());
    };
    let Some(ioas) = objects::access_ioas_of(&world.objects, file, id) else {
        // It is attached.
        unreachable!()
    };
    let (first, last) = (request.iova.0, access_pins::last_of(request));
    let mut asked = Numbers::new(alloc);
    over::add_meeting(&mut asked, &world.areas, file, ioas, first, last)?;
    access_pins::remove(&mut world.access_pins, file, id, request);
    keeping::keep_pinned(
        alloc,
        &mut world.pins,
        &world.objects,
        &world.areas,
        &world.access_pins,
        &asked,
    )
}
