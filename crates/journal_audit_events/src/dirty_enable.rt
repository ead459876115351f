//! DIRTY_ENABLE: the pages that devices write through a page table are tracked from now on, or no more.

ghost use Rattle.std.specs.Prelude.{◌≡◌, ℕ, IfOk};
ghost use Rattle.iofd_steps.specs.After.{changed};
ghost use Rattle.iofd_refusals.specs.Checks.{dirty_enable_checks};
ghost use Rattle.iofd_words.specs.FirstTrue.{first_true};
ghost use Rattle.iofd_words.specs.View.{view};
ghost use Rattle.iofd_words.specs.declared.event.Event.TheVariants as event;
ghost use Rattle.journal_audit_world.specs.Unwritten.{unwritten};

use iofd_words::{Cause, FileNo, NoMemory, ObjId, Reply};
use journal_audit_world::{World, objects, tracked};
use std::alloc::Allocator;

/// Why it is refused, if it is.
#[tactic(auto, unfolding(iofd_refusals::specs::Checks::dirty_enable_checks))]
pub fn refusal<A: Allocator>(world: &World<A>, file: FileNo, hwpt: ObjId) -> Option<Cause>
    ensures { result ≡ first_true (dirty_enable_checks (view world.now) file hwpt) }
{
    if !world.is_open(file) {
        return Some(Cause::Id);
    }
    if !objects::is_hwpt_under(&world.objects, file, hwpt) {
        return Some(Cause::Id);
    }
    None
}

/// What comes of it. Its only error is want of memory.
#[tactic(auto, unfolding(iofd_steps::specs::After::changed))]
pub fn change<A: Allocator + Copy>(
    alloc: A,
    world: &mut World<A>,
    file: FileNo,
    hwpt: ObjId,
    on: bool,
    reply: Reply,
) -> Result<(), NoMemory>
    ensures { IfOk result (λ _. (at : ℕ) →
        unwritten world.new ≡ unwritten (changed {A = A} at world.old (event.DirtyEnable file hwpt on) reply)) }
{
    let Reply::Done = reply else {
        return Ok(());
    };
    tracked::set(alloc, &mut world.tracked, file, hwpt, on)
}
