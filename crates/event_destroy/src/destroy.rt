//! Destroy: an object of a file goes.

ghost use Rattle.std.specs.Prelude.{◌≡◌, ℕ, Option, Some, [], IfOk, IsTrue, OnErr};
ghost use Rattle.iofd_refusals.specs.Checks.{destroy_checks, is_device_object, is_used};
ghost use Rattle.iofd_words.specs.FirstTrue.{first_true};
ghost use Rattle.iofd_words.specs.declared.event.Event.TheVariants as event;
ghost use Rattle.iofd_words.specs.declared.numbers.FrameNo.{FrameNo};
ghost use Rattle.server_state.specs.Held.{objects_in};
ghost use Rattle.server_state.specs.Seen.{seen};
ghost use Rattle.server_state.specs.Step.{IsGranted, IsKnown, MovingSteps, ShowsSame};
ghost use Rattle.server_state.specs.Tables.{has_page_table};

use iofd_words::{Cause, FileNo, FrameNo, NoMemory, ObjId, ObjectKind, Reply};
use object_table::Kind;
use server_state::{State, lookups, release};
use std::alloc::Allocator;

/// Why it is refused, by the first row of the definitions that holds. None where nothing refuses it.
#[tactic(auto, unfolding(iofd_refusals::specs::Checks::destroy_checks))]
pub fn refusal<A: Allocator>(state: &State<A>, file: FileNo, id: ObjId) -> Option<Cause>
    requires { IsKnown state.now }
    ensures { result ≡ first_true (destroy_checks (seen state.now) file id) }
{
    if !state.objects.is_open(file) {
        return Some(Cause::Id);
    }
    let Some(kind) = lookups::kind_of(&state.objects, file, id) else {
        return Some(Cause::Id);
    };
    if is_used(state, file, id, kind) {
        return Some(Cause::InUse);
    }
    if is_device(kind) {
        return Some(Cause::Bound);
    }
    None
}

/// Whether the file's object of this id and kind is in use: page tables and access objects stand on an address space,
/// devices on a page table, and an access object is attached.
fn is_used<A: Allocator>(state: &State<A>, file: FileNo, id: ObjId, kind: ObjectKind) -> bool
    requires { IsKnown state.now }
    ensures { result ≡ is_used (seen state.now) file id (Some kind) }
{
    match kind {
        ObjectKind::Ioas => state.has_users(file, id),
        ObjectKind::Hwpt { .. } => state.has_device_on(file, id),
        ObjectKind::Device(_) => false,
        ObjectKind::Access { ioas } => ioas.is_some(),
    }
}

fn is_device(kind: ObjectKind) -> bool
    ensures { result ≡ is_device_object (Some kind) }
{
    matches!(kind, ObjectKind::Device(_))
}

/// What it does where nothing refuses it. An address space goes with its allowed ranges, and with its areas and their
/// memory objects, of which no page is pinned. A page table gives the frames of its tables back, which are listed by
/// rising number, and with the last one over an address space the pins of its areas' pages go; it isn't tracked any
/// more. An access object that isn't attached goes, and nothing with it.
///
/// The only error is want of memory for that list, where it is a page table. It leaves the world as it was.
pub fn commit<A: Allocator>(
    state: &mut State<A>,
    file: FileNo,
    id: ObjId,
    given: &mut Vec<FrameNo, A>,
) -> Result<Reply, NoMemory>
    requires granted { IsGranted (event.Destroy file id) state.old }
    requires none { given.old.items ≡ [] }
    ensures ok { IfOk result (λ reply. (at : ℕ) (via : Option FrameNo) →
        MovingSteps at (event.Destroy file id) via state.old reply [] given.new.items state.new) }
    ensures err { OnErr result (ShowsSame state.old state.new) }
    ensures none_err { OnErr result (given.new.items ≡ []) }
    ensures memory { OnErr result (IsTrue (has_page_table (objects_in state.old.objects) file id)) }
{
    state.reserve_given(file, id, given)?;
    state.allowed.remove(file, id);
    state.dirty.stop(file, id);
    match lookups::kind_of(&state.objects, file, id) {
        Some(ObjectKind::Ioas) => {
            // It was refused while it had a page table: so no page of its areas is pinned for it.
            release::remove_space(
                &state.objects,
                file,
                id,
                false,
                &mut state.memory,
                &mut state.pool,
            );
            release::remove_object(&mut state.objects, file, Kind::Ioas, id);
        }
        Some(ObjectKind::Hwpt { ioas, .. }) => {
            release::remove_page_table(state, file, id, ioas, given);
        }
        Some(ObjectKind::Access { .. }) => {
            release::remove_object(&mut state.objects, file, Kind::Access, id);
        }
        // It was refused.
        Some(ObjectKind::Device(_)) => unreachable!(),
        None => unreachable!(),
    }
    Ok(Reply::Done)
}
