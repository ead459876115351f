//! Unbind: a device is bound no more.

ghost use Rattle.std.specs.Prelude.{◌≡◌, ℕ, not, filter};
ghost use Rattle.iofd_refusals.specs.Checks.{unbind_checks};
ghost use Rattle.iofd_words.specs.FirstTrue.{first_true};
ghost use Rattle.iofd_words.specs.Objects.{is_bound_as};
ghost use Rattle.iofd_words.specs.declared.event.Event.TheVariants as event;
ghost use Rattle.server_state.specs.Seen.{seen};
ghost use Rattle.server_state.specs.Step.{IsGranted, IsKnown, Steps};

use iofd_words::{Cause, DeviceNo, FileNo, ObjId, Object, ObjectKind, Reply};
use object_table::Kind;
use server_state::{State, lookups, release};
use std::alloc::Allocator;

/// Why it is refused, by the first row of the definitions that holds. None where nothing refuses it.
#[tactic(auto, unfolding(iofd_refusals::specs::Checks::unbind_checks))]
pub fn refusal<A: Allocator>(state: &State<A>, file: FileNo, id: ObjId) -> Option<Cause>
    requires { IsKnown state.now }
    ensures { result ≡ first_true (unbind_checks (seen state.now) file id) }
{
    if !state.objects.is_open(file) {
        return Some(Cause::Id);
    }
    let Some(ObjectKind::Device(device)) = lookups::kind_of(&state.objects, file, id) else {
        return Some(Cause::Id);
    };
    if state.attachment_of(device).is_some() {
        return Some(Cause::InUse);
    }
    None
}

/// What it does where nothing refuses it: the file's object goes, and the device may be bound again. It takes no
/// memory.
pub fn commit<A: Allocator>(state: &mut State<A>, file: FileNo, id: ObjId) -> Reply
    requires { IsGranted (event.Unbind file id) state.old }
    ensures { (at : ℕ) → Steps at (event.Unbind file id) state.old result state.new }
{
    match lookups::kind_of(&state.objects, file, id) {
        Some(ObjectKind::Device(device)) => {
            free(&mut state.bindings, device);
            release::remove_object(&mut state.objects, file, Kind::Device, id);
        }
        // It was refused.
        Some(ObjectKind::Ioas) => unreachable!(),
        Some(ObjectKind::Hwpt { .. }) => unreachable!(),
        Some(ObjectKind::Access { .. }) => unreachable!(),
        None => unreachable!(),
    }
    Reply::Done
}

/// Takes away by which object the device is bound.
fn free<A: Allocator>(bindings: &mut Vec<Object, A>, device: DeviceNo)
    ensures { bindings.new.items ≡ filter (λ object. not (is_bound_as device object.kind)) bindings.old.items }
{
    bindings.retain(|object| object.kind != ObjectKind::Device(device));
}
