//! Detach: a device's attachment ends, and with its last device an automatic page table goes.

ghost use Rattle.std.specs.Prelude.{◌≡◌, ℕ, ◌&&◌, not, if◌then◌else◌, None, Some, IfOk};
ghost use Rattle.std.specs.List.{list_any};
ghost use Rattle.iofd_steps.specs.After.{changed};
ghost use Rattle.iofd_refusals.specs.Checks.{detach_checks, refusal};
ghost use Rattle.iofd_words.specs.Dirty.{without_tracked};
ghost use Rattle.iofd_words.specs.FirstTrue.{first_true};
ghost use Rattle.iofd_words.specs.Objects.{is_automatic, is_object, kind_of};
ghost use Rattle.iofd_words.specs.View.{view};
ghost use Rattle.iofd_words.specs.declared.event.Event.TheVariants as event;
ghost use Rattle.journal_audit_events.specs.Asked.{over_space, space_left};
ghost use Rattle.journal_audit_world.specs.Keys.{has_number};
ghost use Rattle.journal_audit_world.specs.Kept.{IsKept};
ghost use Rattle.journal_audit_world.specs.Unwritten.{unwritten};

use iofd_words::{Cause, DeviceNo, FileNo, NoMemory, ObjId, Object, ObjectKind, Reply};
use journal_audit_world::tracked::TrackedRow;
use journal_audit_world::{Numbers, World, areas, attachments, keeping, objects, over, tracked};
use std::alloc::Allocator;

/// Why it is refused, if it is.
#[tactic(auto, unfolding(iofd_refusals::specs::Checks::detach_checks))]
pub fn refusal<A: Allocator>(world: &World<A>, device: DeviceNo) -> Option<Cause>
    ensures { result ≡ first_true (detach_checks (view world.now) device) }
{
    if objects::binding_of(&world.objects, device).is_none() {
        return Some(Cause::Id);
    }
    if attachments::attachment_of(&world.attachments, device).is_none() {
        return Some(Cause::Unattached);
    }
    None
}

// The address space of a page table that goes with its last device, if it is one.
fn space_left(kind: ObjectKind, is_used: bool) -> Option<ObjId>
    ensures { result ≡ space_left is_used (Some kind) }
{
    match kind {
        ObjectKind::Hwpt {
            ioas,
            automatic,
            ..
        } if automatic && !is_used => Some(ioas),
        _ => None,
    }
}

// The numbers of the memory objects that areas are over in that address space.
fn numbers_left<A: Allocator + Copy>(
    alloc: A,
    world: &World<A>,
    file: FileNo,
    hwpt: ObjId,
    is_used: bool,
) -> Result<Numbers<A>, NoMemory>
    ensures { let w = world.now in IfOk result (λ numbers. (n : ℕ) → has_number numbers n
        ≡ over_space file (space_left is_used (kind_of w.objects file hwpt)) w.areas n) }
{
    let mut numbers = Numbers::new(alloc);
    let Some(kind) = objects::kind_of(&world.objects, file, hwpt) else {
        return Ok(numbers);
    };
    if let Some(ioas) = space_left(kind, is_used) {
        over::add_under(&mut numbers, &world.areas, file, ioas)?;
    }
    Ok(numbers)
}

// Whether it is an automatic page table of this name that goes with its last device.
fn goes_one(file: FileNo, hwpt: ObjId, is_used: bool, object: Object) -> bool
    ensures { result ≡ (is_object file hwpt object && is_automatic object.kind && not is_used) }
{
    objects::is_object(file, hwpt, object) && objects::is_automatic(object.kind) && !is_used
}

// Whether such a page table is there.
fn goes(objects: &[Object], file: FileNo, hwpt: ObjId, is_used: bool) -> bool
    ensures { result ≡ list_any (λ object. is_object file hwpt object && is_automatic object.kind && not is_used)
        objects.now }
{
    for object in objects {
        if goes_one(file, hwpt, is_used, *object) {
            return true;
        }
    }
    false
}

// It isn't tracked any more then.
fn stop_left<A: Allocator>(
    rows: &mut Vec<TrackedRow<A>, A>,
    objects: &[Object],
    file: FileNo,
    hwpt: ObjId,
    is_used: bool,
)
    ensures { rows.new.items
        ≡ (if list_any (λ object. is_object file hwpt object && is_automatic object.kind && not is_used) objects.now
        then without_tracked file hwpt rows.old.items else rows.old.items) }
{
    if goes(objects, file, hwpt, is_used) {
        tracked::stop(rows, file, hwpt);
    }
}

/// What comes of it, where nothing refuses it, at this position. Its only error is want of memory.
#[tactic(auto, unfolding(iofd_steps::specs::After::changed))]
pub fn change<A: Allocator + Copy>(
    alloc: A,
    at: u64,
    world: &mut World<A>,
    device: DeviceNo,
    reply: Reply,
) -> Result<(), NoMemory>
    requires kept { IsKept at world.old }
    requires granted { refusal {A = A} world.old (event.Detach device) ≡ None }
    ensures { IfOk result (λ _. unwritten world.new
        ≡ unwritten (changed {A = A} at world.old (event.Detach device) reply)) }
{
    let Reply::Done = reply else {
        return Ok(());
    };
    let Some(attachment) = attachments::attachment_of(&world.attachments, device) else {
        return Ok(());
    };
    let (file, hwpt) = (attachment.file, attachment.hwpt);
    attachments::remove(&mut world.attachments, device);
    let is_used = attachments::has_device_on(&world.attachments, file, hwpt);
    let asked = numbers_left(alloc, world, file, hwpt, is_used)?;
    stop_left(&mut world.tracked, &world.objects, file, hwpt, is_used);
    objects::remove_automatic(&mut world.objects, file, hwpt, is_used);
    areas::pay(&mut world.areas, device);
    keeping::keep_pinned(
        alloc,
        &mut world.pins,
        &world.objects,
        &world.areas,
        &world.access_pins,
        &asked,
    )
}
