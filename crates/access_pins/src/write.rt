//! AccessWrite: an access object writes what it has pinned.

ghost use Rattle.std.specs.Prelude.{◌≡◌, ℕ};
ghost use Rattle.iofd_refusals.specs.Checks.{access_write_checks};
ghost use Rattle.iofd_words.specs.FirstTrue.{first_true};
ghost use Rattle.iofd_words.specs.declared.event.Event.TheVariants as event;
ghost use Rattle.server_state.specs.Seen.{seen};
ghost use Rattle.server_state.specs.Step.{IsGranted, IsKnown, Steps};

use crate::held_access;
use iofd_words::{AccessKind, Burst, Cause, FileNo, Iova, ObjId, PAGE_SIZE, Reply};
use server_state::State;
use std::alloc::Allocator;

/// Why it is refused, by the first row of the definitions that holds. None where nothing refuses it.
///
/// Refused by 11 (ENOENT, `Cause::Id`) where the file isn't open or has no access object of this id, then by 28
/// (ENOENT, `Cause::Unattached`) where that isn't attached, then by 26 (EINVAL, `Cause::Cross`) where the bytes leave
/// the page, then by 18 (EINVAL, `Cause::NotHeld`) where no pin of it covers the page, and then by 16 (EPERM,
/// `Cause::Rights`) where none that does is for writes.
#[tactic(auto, unfolding(iofd_refusals::specs::Checks::access_write_checks))]
pub fn refusal<A: Allocator>(
    state: &State<A>,
    file: FileNo,
    id: ObjId,
    iova: Iova,
    bytes: &Burst,
) -> Option<Cause>
    requires { IsKnown state.now }
    ensures { result ≡ first_true (access_write_checks (seen state.now) file id iova bytes.now) }
{
    held_access::refusal(
        state,
        file,
        id,
        iova,
        bytes.as_slice().len(),
        AccessKind::Write,
    )
}

/// What it does where nothing refuses it: the bytes stand in the frame at which the page is pinned, from the address's
/// offset on. It takes no memory. (`iommufd.h` of the kernel, `iommufd_access_rw`.)
pub fn commit<A: Allocator>(
    state: &mut State<A>,
    file: FileNo,
    id: ObjId,
    iova: Iova,
    bytes: &Burst,
) -> Reply
    requires { IsGranted (event.AccessWrite file id iova bytes.now) state.old }
    ensures { (at : ℕ) → Steps at (event.AccessWrite file id iova bytes.now) state.old result state.new }
{
    // Nothing refuses it: so a pin covers the page, and it has a frame.
    if let Some(frame) = held_access::frame_at(state, file, id, iova.0) {
        let offset = (iova.0 % PAGE_SIZE) as usize;
        state.pool.write(frame, offset, bytes.as_slice());
    }
    Reply::Done
}
