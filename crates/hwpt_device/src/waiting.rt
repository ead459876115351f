//! Whether an address space has to wait for its first page table.

ghost use Rattle.std.specs.Prelude.{◌≡◌};
ghost use Rattle.iofd_refusals.specs.Checks.{waits_for_leaving};
ghost use Rattle.server_state.specs.Seen.{seen};
ghost use Rattle.server_state.specs.Step.{IsKnown};

use iofd_words::{FileNo, ObjId};
use server_state::{State, lookups};
use std::alloc::Allocator;

/// Whether the file's address space of this id gets no page table yet: it has none, and an area of it is leaving. It
/// looks at no area.
pub(crate) fn waits_for_leaving<A: Allocator>(state: &State<A>, file: FileNo, ioas: ObjId) -> bool
    requires { IsKnown state.now }
    ensures { result ≡ waits_for_leaving (seen state.now) file ioas }
{
    match lookups::areas_of(&state.objects, file, ioas) {
        Some(areas) => areas.has_leaving() && !state.has_hwpt(file, ioas),
        None => false,
    }
}
