//! Bind, Unbind and Flush: a device is bound to a file and taken away from it, and forgets what it had cached.

ghost use Rattle.std.specs.Prelude.{◌≡◌, ℕ, IfOk};
ghost use Rattle.iofd_steps.specs.After.{changed};
ghost use Rattle.iofd_refusals.specs.Checks.{bind_checks, flush_checks, is_attached, is_device_object, unbind_checks};
ghost use Rattle.iofd_words.specs.FirstTrue.{first_true};
ghost use Rattle.iofd_words.specs.Objects.{kind_of};
ghost use Rattle.iofd_words.specs.View.{view};
ghost use Rattle.iofd_words.specs.declared.event.Event.TheVariants as event;
ghost use Rattle.journal_audit_world.specs.Unwritten.{unwritten};

use iofd_words::{Cause, DeviceNo, FileNo, NoMemory, ObjId, Object, ObjectKind, Reply};
use journal_audit_world::{World, areas, attachments, objects};
use std::alloc::Allocator;

/// Why Bind is refused, if it is.
#[tactic(auto, unfolding(iofd_refusals::specs::Checks::bind_checks))]
pub fn bind_refusal<A: Allocator>(world: &World<A>, file: FileNo, device: DeviceNo) -> Option<Cause>
    ensures { result ≡ first_true (bind_checks (view world.now) file device) }
{
    if !world.is_open(file) {
        return Some(Cause::Id);
    }
    if !world.config.has_device(device) {
        return Some(Cause::Id);
    }
    if objects::binding_of(&world.objects, device).is_some() {
        return Some(Cause::Bound);
    }
    if objects::is_full(&world.objects, file) {
        return Some(Cause::Full);
    }
    None
}

/// What comes of Bind. Its only error is want of memory.
#[tactic(auto, unfolding(iofd_steps::specs::After::changed))]
pub fn bind_change<A: Allocator>(
    world: &mut World<A>,
    file: FileNo,
    device: DeviceNo,
    reply: Reply,
) -> Result<(), NoMemory>
    ensures { IfOk result (λ _. (at : ℕ) →
        unwritten world.new ≡ unwritten (changed {A = A} at world.old (event.Bind file device) reply)) }
{
    let Reply::Id(id) = reply else {
        return Ok(());
    };
    let kind = ObjectKind::Device(device);
    objects::add(&mut world.objects, Object { file, id, kind })
}

/// Why Unbind is refused, if it is.
#[tactic(auto, unfolding(iofd_refusals::specs::Checks::unbind_checks))]
pub fn unbind_refusal<A: Allocator>(world: &World<A>, file: FileNo, id: ObjId) -> Option<Cause>
    ensures { result ≡ first_true (unbind_checks (view world.now) file id) }
{
    if !world.is_open(file) {
        return Some(Cause::Id);
    }
    if !has_device(world, file, id) {
        return Some(Cause::Id);
    }
    if is_attached(world, file, id) {
        return Some(Cause::InUse);
    }
    None
}

// Whether the file has a device under this id.
fn has_device<A: Allocator>(world: &World<A>, file: FileNo, id: ObjId) -> bool
    ensures { result ≡ is_device_object (kind_of world.now.objects file id) }
{
    match objects::kind_of(&world.objects, file, id) {
        Some(kind) => objects::is_bound_device(kind),
        None => false,
    }
}

// Whether that device is attached.
fn is_attached<A: Allocator>(world: &World<A>, file: FileNo, id: ObjId) -> bool
    ensures { result ≡ is_attached (view world.now) (kind_of world.now.objects file id) }
{
    match objects::kind_of(&world.objects, file, id) {
        Some(ObjectKind::Device(device)) => {
            attachments::attachment_of(&world.attachments, device).is_some()
        }
        _ => false,
    }
}

/// What comes of Unbind.
#[tactic(auto, unfolding(iofd_steps::specs::After::changed))]
pub fn unbind_change<A: Allocator>(world: &mut World<A>, file: FileNo, id: ObjId, reply: Reply)
    ensures { (at : ℕ) →
        unwritten world.new ≡ unwritten (changed {A = A} at world.old (event.Unbind file id) reply) }
{
    if matches!(reply, Reply::Done) {
        objects::remove_device(&mut world.objects, file, id);
    }
}

/// Why Flush is refused, if it is.
#[tactic(auto, unfolding(iofd_refusals::specs::Checks::flush_checks))]
pub fn flush_refusal<A: Allocator>(world: &World<A>, device: DeviceNo) -> Option<Cause>
    ensures { result ≡ first_true (flush_checks (view world.now) device) }
{
    if objects::binding_of(&world.objects, device).is_none() {
        return Some(Cause::Id);
    }
    None
}

/// What comes of Flush.
#[tactic(auto, unfolding(iofd_steps::specs::After::changed))]
pub fn flush_change<A: Allocator>(world: &mut World<A>, device: DeviceNo, reply: Reply)
    ensures { (at : ℕ) →
        unwritten world.new ≡ unwritten (changed {A = A} at world.old (event.Flush device) reply) }
{
    if matches!(reply, Reply::Done) {
        areas::pay(&mut world.areas, device);
    }
}
