//! AccessCreate: a file gets an access object.

ghost use Rattle.std.specs.Prelude.{◌≡◌, ℕ, IfOk, OnErr};
ghost use Rattle.iofd_refusals.specs.Checks.{access_create_checks};
ghost use Rattle.iofd_words.specs.FirstTrue.{first_true};
ghost use Rattle.iofd_words.specs.Objects as objects;
ghost use Rattle.iofd_words.specs.declared.event.Event.TheVariants as event;
ghost use Rattle.server_state.specs.Held.{objects_in};
ghost use Rattle.server_state.specs.Seen.{seen};
ghost use Rattle.server_state.specs.Step.{IsGranted, ShowsSame, Steps};

use iofd_words::{CallError, Cause, FileNo, NoMemory, Reply};
use object_table::ObjectTable;
use server_state::{Held, State};
use std::alloc::Allocator;

/// Why it is refused, by the first row of the definitions that holds. None where nothing refuses it.
///
/// Refused by 11 (ENOENT, `Cause::Id`) where the file isn't open, then by 23 (ENOSPC, `Cause::Full`) where it has
/// 65,535 objects.
#[tactic(auto, unfolding(iofd_refusals::specs::Checks::access_create_checks))]
pub fn refusal<A: Allocator>(state: &State<A>, file: FileNo) -> Option<Cause>
    ensures { result ≡ first_true (access_create_checks (seen state.now) file) }
{
    if !state.objects.is_open(file) {
        return Some(Cause::Id);
    }
    if is_full(&state.objects, file) {
        return Some(Cause::Full);
    }
    None
}

/// Whether the file has as many objects as it may have.
#[tactic(auto, using(server_state::proofs::Objects::fullness))]
fn is_full<A: Allocator>(table: &ObjectTable<Held<A>, A>, file: FileNo) -> bool
    ensures { result ≡ objects.is_full (objects_in table.now) file }
{
    table.is_full(file)
}

/// What it does where nothing refuses it: the file has one more object, an access object that is attached to nothing,
/// under an unused id. (`iommufd.h` of the kernel, `iommufd_access_create`: by it a driver reaches the memory of an
/// address space in software.)
///
/// The only error is want of memory. It leaves the world as it was.
pub fn commit<A: Allocator>(state: &mut State<A>, file: FileNo) -> Result<Reply, NoMemory>
    requires { IsGranted (event.AccessCreate file) state.old }
    ensures ok { IfOk result (λ reply. (at : ℕ) → Steps at (event.AccessCreate file) state.old reply state.new) }
    ensures err { OnErr result (ShowsSame state.old state.new) }
{
    match state.objects.reserve(file) {
        Ok(_) => (),
        // The file is open and not full.
        Err(CallError::Refused(_)) => unreachable!(),
        Err(CallError::Memory(no_memory)) => return Err(no_memory),
    }
    let id = state.objects.insert_reserved(file, Held::Access(None));
    Ok(Reply::Id(id))
}
