//! AccessDetach: an access object is attached no more.

ghost use Rattle.std.specs.Prelude.{◌≡◌, ℕ};
ghost use Rattle.iofd_refusals.specs.Checks.{access_detach_checks};
ghost use Rattle.iofd_words.specs.FirstTrue.{first_true};
ghost use Rattle.iofd_words.specs.declared.event.Event.TheVariants as event;
ghost use Rattle.server_state.specs.Seen.{seen};
ghost use Rattle.server_state.specs.Step.{IsGranted, Steps};

use crate::asked::attached_to;
use iofd_words::{Cause, FileNo, ObjId, ObjectKind, Reply};
use server_state::{State, access_changes, lookups};
use std::alloc::Allocator;

/// Why it is refused, by the first row of the definitions that holds. None where nothing refuses it.
///
/// Refused by 11 (ENOENT, `Cause::Id`) where the file isn't open or has no access object of this id, then by 28
/// (ENOENT, `Cause::Unattached`) where that isn't attached, then by 12 (EBUSY, `Cause::InUse`) where it holds a pin.
#[tactic(auto, unfolding(iofd_refusals::specs::Checks::access_detach_checks))]
pub fn refusal<A: Allocator>(state: &State<A>, file: FileNo, id: ObjId) -> Option<Cause>
    ensures { result ≡ first_true (access_detach_checks (seen state.now) file id) }
{
    if !state.objects.is_open(file) {
        return Some(Cause::Id);
    }
    let Some(ObjectKind::Access { ioas: attached }) = lookups::kind_of(&state.objects, file, id)
    else {
        return Some(Cause::Id);
    };
    if attached.is_none() {
        return Some(Cause::Unattached);
    }
    if state.access_pins.holds_some(file, id) {
        return Some(Cause::InUse);
    }
    None
}

/// What it does where nothing refuses it: the access object is attached to nothing, and may be attached anew or
/// destroyed; its address space has one user fewer. It takes no memory. (`iommufd.h` of the kernel,
/// `iommufd_access_detach`.)
pub fn commit<A: Allocator>(state: &mut State<A>, file: FileNo, id: ObjId) -> Reply
    requires { IsGranted (event.AccessDetach file id) state.old }
    ensures { (at : ℕ) → Steps at (event.AccessDetach file id) state.old result state.new }
{
    let Some(ioas) = attached_to(&state.objects, file, id) else {
        // It was refused.
        unreachable!()
    };
    access_changes::detach(&mut state.objects, file, id, ioas);
    Reply::Done
}
