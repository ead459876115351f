//! AccessUnpin: an access object lets a pin go.

ghost use Rattle.std.specs.Prelude.{◌≡◌, ℕ, Some};
ghost use Rattle.std.specs.List.{list_any};
ghost use Rattle.iofd_words.specs.Accesses.{pin_of};
ghost use Rattle.iofd_refusals.specs.Checks.{access_unpin_checks};
ghost use Rattle.iofd_words.specs.FirstTrue.{first_true};
ghost use Rattle.iofd_words.specs.Objects.{access_ioas_of};
ghost use Rattle.iofd_words.specs.Pins.{is_equal};
ghost use Rattle.iofd_words.specs.declared.event.Event.TheVariants as event;
ghost use Rattle.server_state.specs.AccessPins.{row_of};
ghost use Rattle.server_state.specs.Held.{objects_in};
ghost use Rattle.server_state.specs.Seen.{seen};
ghost use Rattle.server_state.specs.Step.{IsGranted, IsKnown, Steps};

use crate::asked::{asked_pin, attached_to};
use iofd_words::{Cause, FileNo, ObjId, ObjectKind, PinRequest, Reply};
use server_state::{State, lookups};
use std::alloc::Allocator;

/// Why it is refused, by the first row of the definitions that holds. None where nothing refuses it.
///
/// Refused by 11 (ENOENT, `Cause::Id`) where the file isn't open or has no access object of this id, then by 28
/// (ENOENT, `Cause::Unattached`) where that isn't attached, then by 18 (EINVAL, `Cause::NotHeld`) where it holds no pin
/// of just these addresses, for writes too or for reads alone as is said.
#[tactic(auto, unfolding(iofd_refusals::specs::Checks::access_unpin_checks))]
pub fn refusal<A: Allocator>(
    state: &State<A>,
    file: FileNo,
    id: ObjId,
    request: PinRequest,
) -> Option<Cause>
    requires { IsKnown state.now }
    ensures { result ≡ first_true (access_unpin_checks (seen state.now) file id request) }
{
    if !state.objects.is_open(file) {
        return Some(Cause::Id);
    }
    let Some(ObjectKind::Access { ioas: attached }) = lookups::kind_of(&state.objects, file, id)
    else {
        return Some(Cause::Id);
    };
    let Some(ioas) = attached else {
        return Some(Cause::Unattached);
    };
    if !is_held(state, file, id, ioas, request) {
        return Some(Cause::NotHeld);
    }
    None
}

/// What it does where nothing refuses it: one pin that equals the one asked for goes. Its pages are pinned still where
/// a page table or another pin pins them; else their user gets them back, and what an UNMAP waits for is less. It takes
/// no memory. (`iommufd.h` of the kernel, `iommufd_access_unpin_pages`.)
pub fn commit<A: Allocator + Copy>(
    state: &mut State<A>,
    file: FileNo,
    id: ObjId,
    request: PinRequest,
) -> Reply
    requires { IsGranted (event.AccessUnpin file id request) state.old }
    ensures { (at : ℕ) → Steps at (event.AccessUnpin file id request) state.old result state.new }
{
    let Some(ioas) = attached_to(&state.objects, file, id) else {
        // It was refused.
        unreachable!()
    };
    let Some(pin) = asked_pin(file, id, ioas, request) else {
        // A pin that is held has pages.
        unreachable!()
    };
    let Some(areas) = lookups::areas_of(&state.objects, file, ioas) else {
        // It is attached to an address space.
        unreachable!()
    };
    areas.facts();
    let areas = access_pages::meeting(areas, pin.span);
    access_pages::unpin_all(areas, pin.span, &mut state.memory, &mut state.pool);
    state.access_pins.unpin(pin);
    Reply::Done
}

/// Whether the access object, which is attached to the address space, holds such a pin. Of no addresses, or of some
/// from 2^64 on, it holds none, since pins are of whole pages and end below.
fn is_held<A: Allocator>(
    state: &State<A>,
    file: FileNo,
    id: ObjId,
    ioas: ObjId,
    request: PinRequest,
) -> bool
    requires known { IsKnown state.now }
    requires attached { access_ioas_of (objects_in state.now.objects) file id ≡ Some ioas }
    ensures { result ≡ list_any (λ kept. is_equal (pin_of file id request) (row_of kept)) state.now.access_pins }
{
    match asked_pin(file, id, ioas, request) {
        Some(pin) => state.access_pins.holds(pin),
        None => false,
    }
}
