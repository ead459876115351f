//! IOAS_ALLOC: a file gets a new address space.

ghost use Rattle.std.specs.Prelude.{◌≡◌, ℕ, IfOk};
ghost use Rattle.iofd_steps.specs.After.{changed};
ghost use Rattle.iofd_refusals.specs.Checks.{ioas_alloc_checks};
ghost use Rattle.iofd_words.specs.FirstTrue.{first_true};
ghost use Rattle.iofd_words.specs.View.{view};
ghost use Rattle.iofd_words.specs.declared.event.Event.TheVariants as event;
ghost use Rattle.journal_audit_world.specs.Unwritten.{unwritten};

use iofd_words::{Cause, FileNo, NoMemory, Object, ObjectKind, Reply};
use journal_audit_world::{World, objects};
use std::alloc::Allocator;

/// Why it is refused, if it is.
#[tactic(auto, unfolding(iofd_refusals::specs::Checks::ioas_alloc_checks))]
pub fn refusal<A: Allocator>(world: &World<A>, file: FileNo) -> Option<Cause>
    ensures { result ≡ first_true (ioas_alloc_checks (view world.now) file) }
{
    if !world.is_open(file) {
        return Some(Cause::Id);
    }
    if objects::is_full(&world.objects, file) {
        return Some(Cause::Full);
    }
    None
}

/// What comes of it. Its only error is want of memory.
#[tactic(auto, unfolding(iofd_steps::specs::After::changed))]
pub fn change<A: Allocator>(
    world: &mut World<A>,
    file: FileNo,
    reply: Reply,
) -> Result<(), NoMemory>
    ensures { IfOk result (λ _. (at : ℕ) →
        unwritten world.new ≡ unwritten (changed {A = A} at world.old (event.IoasAlloc file) reply)) }
{
    let Reply::Id(id) = reply else {
        return Ok(());
    };
    let kind = ObjectKind::Ioas;
    objects::add(&mut world.objects, Object { file, id, kind })
}
