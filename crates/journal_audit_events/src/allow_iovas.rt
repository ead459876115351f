//! ALLOW_IOVAS: the ranges to which addresses that the server chooses are bounded.

ghost use Rattle.std.specs.Prelude.{◌≡◌, ℕ, IfOk};
ghost use Rattle.iofd_steps.specs.After.{changed};
ghost use Rattle.std.specs.List.{list_any};
ghost use Rattle.iofd_refusals.specs.Checks.{allow_iovas_checks, unusable_in};
ghost use Rattle.iofd_words.specs.Ranges.{meets_some};
ghost use Rattle.iofd_words.specs.FirstTrue.{first_true};
ghost use Rattle.iofd_words.specs.View.{view};
ghost use Rattle.iofd_words.specs.declared.event.Event.TheVariants as event;
ghost use Rattle.journal_audit_world.specs.Unwritten.{unwritten};

use crate::usable;
use iofd_words::{Cause, FileNo, IovaRange, NoMemory, ObjId, Reply};
use journal_audit_world::{World, allowed, objects};
use std::alloc::Allocator;

/// Why it is refused, if it is.
#[tactic(auto, unfolding(iofd_refusals::specs::Checks::allow_iovas_checks))]
pub fn refusal<A: Allocator>(
    world: &World<A>,
    file: FileNo,
    ioas: ObjId,
    ranges: &[IovaRange],
) -> Option<Cause>
    ensures { result ≡ first_true (allow_iovas_checks (view world.now) file ioas ranges.now) }
{
    if !world.is_open(file) {
        return Some(Cause::Id);
    }
    if !objects::has_ioas(&world.objects, file, ioas) {
        return Some(Cause::Id);
    }
    if !allowed::are_ranges(ranges) {
        return Some(Cause::List);
    }
    if meet_unusable(world, file, ioas, ranges) {
        return Some(Cause::Narrow);
    }
    None
}

// Whether some range has an address that the address space can't use.
fn meet_unusable<A: Allocator>(
    world: &World<A>,
    file: FileNo,
    ioas: ObjId,
    ranges: &[IovaRange],
) -> bool
    ensures { result ≡ list_any (meets_some (unusable_in (view world.now) file ioas)) ranges.now }
{
    usable::meet_unusable(
        &world.config,
        &world.objects,
        &world.attachments,
        file,
        ioas,
        ranges,
    )
}

/// What comes of it. Its only error is want of memory.
#[tactic(auto, unfolding(iofd_steps::specs::After::changed))]
pub fn change<A: Allocator + Copy>(
    alloc: A,
    world: &mut World<A>,
    file: FileNo,
    ioas: ObjId,
    ranges: &[IovaRange],
    reply: Reply,
) -> Result<(), NoMemory>
    ensures { IfOk result (λ _. (at : ℕ) →
        unwritten world.new ≡ unwritten (changed {A = A} at world.old (event.AllowIovas file ioas ranges.now) reply)) }
{
    if matches!(reply, Reply::Done) {
        allowed::set(alloc, &mut world.allowed, file, ioas, ranges)?;
    }
    Ok(())
}
