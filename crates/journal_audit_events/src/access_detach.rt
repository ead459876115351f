//! AccessDetach: an access object is attached to nothing any more.

ghost use Rattle.std.specs.Prelude.{◌≡◌, ℕ};
ghost use Rattle.iofd_steps.specs.After.{changed};
ghost use Rattle.iofd_refusals.specs.Checks.{access_detach_checks};
ghost use Rattle.iofd_words.specs.FirstTrue.{first_true};
ghost use Rattle.iofd_words.specs.View.{view};
ghost use Rattle.iofd_words.specs.declared.event.Event.TheVariants as event;
ghost use Rattle.journal_audit_world.specs.Unwritten.{unwritten};

use iofd_words::{Cause, FileNo, ObjId, Reply};
use journal_audit_world::{World, access_pins, objects};
use std::alloc::Allocator;

/// Why it is refused, if it is.
#[tactic(auto, unfolding(iofd_refusals::specs::Checks::access_detach_checks))]
pub fn refusal<A: Allocator>(world: &World<A>, file: FileNo, id: ObjId) -> Option<Cause>
    ensures { result ≡ first_true (access_detach_checks (view world.now) file id) }
{
    if !world.is_open(file) {
        return Some(Cause::Id);
    }
    if !objects::has_access(&world.objects, file, id) {
        return Some(Cause::Id);
    }
    if objects::access_ioas_of(&world.objects, file, id).is_none() {
        return Some(Cause::Unattached);
    }
    if access_pins::holds_pin(&world.access_pins, file, id) {
        return Some(Cause::InUse);
    }
    None
}

/// What comes of it.
#[tactic(auto, unfolding(iofd_steps::specs::After::changed))]
pub fn change<A: Allocator>(world: &mut World<A>, file: FileNo, id: ObjId, reply: Reply)
    ensures { (at : ℕ) →
        unwritten world.new ≡ unwritten (changed {A = A} at world.old (event.AccessDetach file id) reply) }
{
    if matches!(reply, Reply::Done) {
        objects::attach_access(&mut world.objects, file, id, None);
    }
}
