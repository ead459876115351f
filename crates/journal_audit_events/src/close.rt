//! Close: a file goes with all that it has.

ghost use Rattle.std.specs.Prelude.{◌≡◌, ◌==◌, ◌&&◌, ◌||◌, None, IfOk};
ghost use Rattle.std.specs.List.{list_any};
ghost use Rattle.iofd_steps.specs.After.{changed};
ghost use Rattle.iofd_refusals.specs.Checks.{close_checks, refusal};
ghost use Rattle.iofd_words.specs.FirstTrue.{first_true};
ghost use Rattle.iofd_words.specs.Objects.{is_access, is_bound_device, objects_of};
ghost use Rattle.iofd_words.specs.View.{view};
ghost use Rattle.iofd_words.specs.declared.event.Event.TheVariants as event;
ghost use Rattle.journal_audit_world.specs.Kept.{IsKept};
ghost use Rattle.journal_audit_world.specs.Unwritten.{unwritten};

use iofd_words::{Cause, FileNo, NoMemory, Object, Reply};
use journal_audit_world::{
    Numbers, World, allowed, areas, attachments, keeping, objects, over, tracked,
};
use std::alloc::Allocator;

/// Why it is refused, if it is.
#[tactic(auto, unfolding(iofd_refusals::specs::Checks::close_checks))]
pub fn refusal<A: Allocator>(world: &World<A>, file: FileNo) -> Option<Cause>
    ensures { result ≡ first_true (close_checks (view world.now) file) }
{
    if !world.is_open(file) {
        return Some(Cause::Id);
    }
    if has_holder(&world.objects, file) {
        return Some(Cause::InUse);
    }
    None
}

// Whether it is a device or an access object of the file.
fn is_holder(file: FileNo, object: Object) -> bool
    ensures { result ≡ (object.file.0 == file.0 && (is_bound_device object.kind || is_access object.kind)) }
{
    object.file.0 == file.0
        && (objects::is_bound_device(object.kind) || objects::is_access(object.kind))
}

// Whether the file has a device or an access object.
fn has_holder(objects: &[Object], file: FileNo) -> bool
    ensures { result ≡ list_any (λ object. is_bound_device object.kind || is_access object.kind)
        (objects_of objects.now file) }
{
    for object in objects {
        if is_holder(file, *object) {
            return true;
        }
    }
    false
}

/// What comes of it, where nothing refuses it, at this position. Its only error is want of memory.
#[tactic(auto, unfolding(iofd_steps::specs::After::changed))]
pub fn change<A: Allocator + Copy>(
    alloc: A,
    at: u64,
    world: &mut World<A>,
    file: FileNo,
    reply: Reply,
) -> Result<(), NoMemory>
    requires kept { IsKept at world.old }
    requires granted { refusal {A = A} world.old (event.Close file) ≡ None }
    ensures { IfOk result (λ _. unwritten world.new ≡ unwritten (changed {A = A} at world.old (event.Close file)
        reply)) }
{
    let Reply::Done = reply else {
        return Ok(());
    };
    let mut asked = Numbers::new(alloc);
    over::add_of_file(&mut asked, &world.areas, file)?;
    world.closed.push(file)?;
    areas::remove_of_file(&mut world.areas, file);
    keeping::keep_used(alloc, &mut world.memory, &world.areas, &asked)?;
    objects::remove_of_file(&mut world.objects, file);
    attachments::remove_of_file(&mut world.attachments, file);
    allowed::remove_of_file(&mut world.allowed, file);
    tracked::stop_file(&mut world.tracked, file);
    keeping::keep_pinned(
        alloc,
        &mut world.pins,
        &world.objects,
        &world.areas,
        &world.access_pins,
        &asked,
    )
}
