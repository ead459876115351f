//! DESTROY: an object goes, an address space with its areas and allowed ranges.

ghost use Rattle.std.specs.Prelude.{◌≡◌, ◌||◌, ℕ, None, IfOk};
ghost use Rattle.iofd_steps.specs.After.{changed};
ghost use Rattle.iofd_words.specs.Areas.{is_of};
ghost use Rattle.iofd_refusals.specs.Checks.{destroy_checks, is_device_object, is_used, refusal};
ghost use Rattle.iofd_words.specs.FirstTrue.{first_true};
ghost use Rattle.iofd_words.specs.Objects.{kind_of};
ghost use Rattle.iofd_words.specs.View.{view};
ghost use Rattle.iofd_words.specs.declared.event.Event.TheVariants as event;
ghost use Rattle.journal_audit_events.specs.Asked.{over_space, space_under};
ghost use Rattle.journal_audit_world.specs.Keys.{has_number};
ghost use Rattle.journal_audit_world.specs.Kept.{IsKept};
ghost use Rattle.journal_audit_world.specs.Over.{is_over};
ghost use Rattle.journal_audit_world.specs.Unwritten.{unwritten};

use iofd_words::{Cause, FileNo, NoMemory, ObjId, ObjectKind, Reply};
use journal_audit_world::{
    Numbers, World, allowed, areas, attachments, keeping, objects, over, tracked,
};
use std::alloc::Allocator;

/// Why it is refused, if it is.
#[tactic(auto, unfolding(iofd_refusals::specs::Checks::destroy_checks))]
pub fn refusal<A: Allocator>(world: &World<A>, file: FileNo, id: ObjId) -> Option<Cause>
    ensures { result ≡ first_true (destroy_checks (view world.now) file id) }
{
    if !world.is_open(file) {
        return Some(Cause::Id);
    }
    let kind = objects::kind_of(&world.objects, file, id);
    if kind.is_none() {
        return Some(Cause::Id);
    }
    if is_used(world, file, id, kind) {
        return Some(Cause::InUse);
    }
    if is_device_object(kind) {
        return Some(Cause::Bound);
    }
    None
}

// Whether others stand on the object, or it is an access object that is attached.
fn is_used<A: Allocator>(
    world: &World<A>,
    file: FileNo,
    id: ObjId,
    kind: Option<ObjectKind>,
) -> bool
    ensures { result ≡ is_used (view world.now) file id kind }
{
    match kind {
        Some(ObjectKind::Ioas) => {
            objects::has_hwpt(&world.objects, file, id)
                || objects::has_access_to(&world.objects, file, id)
        }
        Some(ObjectKind::Hwpt { .. }) => {
            attachments::has_device_on(&world.attachments, file, id)
        }
        Some(ObjectKind::Access { ioas }) => ioas.is_some(),
        _ => false,
    }
}

fn is_device_object(kind: Option<ObjectKind>) -> bool
    ensures { result ≡ is_device_object kind }
{
    match kind {
        Some(kind) => objects::is_bound_device(kind),
        None => false,
    }
}

// The numbers of the memory objects that areas are over in the address space of this id, or of the page table of this
// id.
fn numbers_at<A: Allocator + Copy>(
    alloc: A,
    world: &World<A>,
    file: FileNo,
    id: ObjId,
) -> Result<Numbers<A>, NoMemory>
    ensures { let w = world.now in IfOk result (λ numbers. (n : ℕ) → has_number numbers n
        ≡ (is_over (is_of file id) w.areas n || over_space file (space_under (kind_of w.objects file id)) w.areas n)) }
{
    let mut numbers = Numbers::new(alloc);
    over::add_under(&mut numbers, &world.areas, file, id)?;
    if let Some(kind) = objects::kind_of(&world.objects, file, id) {
        if let Some(ioas) = attachments::ioas_of(kind) {
            over::add_under(&mut numbers, &world.areas, file, ioas)?;
        }
    }
    Ok(numbers)
}

/// What comes of it, where nothing refuses it, at this position. Its only error is want of memory.
#[tactic(auto, unfolding(iofd_steps::specs::After::changed))]
pub fn change<A: Allocator + Copy>(
    alloc: A,
    at: u64,
    world: &mut World<A>,
    file: FileNo,
    id: ObjId,
    reply: Reply,
) -> Result<(), NoMemory>
    requires kept { IsKept at world.old }
    requires granted { refusal {A = A} world.old (event.Destroy file id) ≡ None }
    ensures { IfOk result (λ _. unwritten world.new
        ≡ unwritten (changed {A = A} at world.old (event.Destroy file id) reply)) }
{
    let Reply::Done = reply else {
        return Ok(());
    };
    let asked = numbers_at(alloc, world, file, id)?;
    areas::remove_of(&mut world.areas, file, id);
    keeping::keep_used(alloc, &mut world.memory, &world.areas, &asked)?;
    objects::remove(&mut world.objects, file, id);
    allowed::remove_of(&mut world.allowed, file, id);
    tracked::stop(&mut world.tracked, file, id);
    keeping::keep_pinned(
        alloc,
        &mut world.pins,
        &world.objects,
        &world.areas,
        &world.access_pins,
        &asked,
    )
}
