//! AccessWrite: an access object writes memory that it has pinned. The world after it is the same but for what was
//! written.

ghost use Rattle.std.specs.Prelude.{◌≡◌};
ghost use Rattle.iofd_refusals.specs.Checks.{access_write_checks};
ghost use Rattle.iofd_words.specs.FirstTrue.{first_true};
ghost use Rattle.iofd_words.specs.Pins.{is_covered};
ghost use Rattle.iofd_words.specs.View.{view};

use iofd_words::{AccessKind, Burst, Cause, FileNo, Iova, ObjId};
use journal_audit_world::{World, access_pins, objects, pages};
use std::alloc::Allocator;

/// Why it is refused, if it is.
#[tactic(auto, unfolding(iofd_refusals::specs::Checks::access_write_checks))]
pub fn refusal<A: Allocator>(
    world: &World<A>,
    file: FileNo,
    id: ObjId,
    iova: Iova,
    bytes: Burst,
) -> Option<Cause>
    ensures { result ≡ first_true (access_write_checks (view world.now) file id iova bytes) }
{
    if !world.is_open(file) {
        return Some(Cause::Id);
    }
    if !objects::has_access(&world.objects, file, id) {
        return Some(Cause::Id);
    }
    if objects::access_ioas_of(&world.objects, file, id).is_none() {
        return Some(Cause::Unattached);
    }
    if pages::crosses(iova.0, bytes.as_slice().len()) {
        return Some(Cause::Cross);
    }
    if !is_covered(world, file, id, iova, AccessKind::Read) {
        return Some(Cause::NotHeld);
    }
    if !is_covered(world, file, id, iova, AccessKind::Write) {
        return Some(Cause::Rights);
    }
    None
}

// Whether a pin of the access object covers the page at the address, and is for such an access.
fn is_covered<A: Allocator>(
    world: &World<A>,
    file: FileNo,
    id: ObjId,
    iova: Iova,
    kind: AccessKind,
) -> bool
    ensures { result ≡ is_covered world.now.access_pins file id iova.0 kind }
{
    access_pins::is_covered(&world.access_pins, file, id, iova.0, kind)
}
