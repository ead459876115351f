//! AccessAttach: an access object is attached to an address space.

ghost use Rattle.std.specs.Prelude.{◌≡◌, ℕ};
ghost use Rattle.iofd_refusals.specs.Checks.{access_attach_checks};
ghost use Rattle.iofd_words.specs.FirstTrue.{first_true};
ghost use Rattle.iofd_words.specs.Objects as objects;
ghost use Rattle.iofd_words.specs.declared.event.Event.TheVariants as event;
ghost use Rattle.server_state.specs.Held.{objects_in};
ghost use Rattle.server_state.specs.Seen.{seen};
ghost use Rattle.server_state.specs.Step.{IsGranted, Steps};

use iofd_words::{Cause, FileNo, ObjId, ObjectKind, Reply};
use object_table::ObjectTable;
use server_state::{Held, State, access_changes, lookups};
use std::alloc::Allocator;

/// Why it is refused, by the first row of the definitions that holds. None where nothing refuses it.
///
/// Refused by 11 (ENOENT, `Cause::Id`) where the file isn't open, has no access object of the first id or no address
/// space of the second, then by 13 (EBUSY, `Cause::Bound`) where the access object is attached already.
#[tactic(auto, unfolding(iofd_refusals::specs::Checks::access_attach_checks))]
pub fn refusal<A: Allocator>(
    state: &State<A>,
    file: FileNo,
    id: ObjId,
    ioas: ObjId,
) -> Option<Cause>
    ensures { result ≡ first_true (access_attach_checks (seen state.now) file id ioas) }
{
    if !state.objects.is_open(file) {
        return Some(Cause::Id);
    }
    let Some(ObjectKind::Access { ioas: attached }) = lookups::kind_of(&state.objects, file, id)
    else {
        return Some(Cause::Id);
    };
    if !has_ioas(&state.objects, file, ioas) {
        return Some(Cause::Id);
    }
    if attached.is_some() {
        return Some(Cause::Bound);
    }
    None
}

/// Whether the file has an address space of this id.
fn has_ioas<A: Allocator>(table: &ObjectTable<Held<A>, A>, file: FileNo, id: ObjId) -> bool
    ensures { result ≡ objects.has_ioas (objects_in table.now) file id }
{
    matches!(lookups::kind_of(table, file, id), Some(ObjectKind::Ioas))
}

/// What it does where nothing refuses it: the access object is attached to the address space, which can't be destroyed
/// from then on, and nor can the access object, until it is detached. It pins no page, and takes no memory.
/// (`iommufd.h` of the kernel, `iommufd_access_attach`.)
pub fn commit<A: Allocator>(state: &mut State<A>, file: FileNo, id: ObjId, ioas: ObjId) -> Reply
    requires { IsGranted (event.AccessAttach file id ioas) state.old }
    ensures { (at : ℕ) → Steps at (event.AccessAttach file id ioas) state.old result state.new }
{
    // The file has few objects: so its address space has few users.
    state.objects.facts(file);
    access_changes::attach(&mut state.objects, file, id, ioas);
    Reply::Done
}
