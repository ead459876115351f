//! IoasAlloc: a file gets a new address space.

ghost use Rattle.std.specs.Prelude.{◌≡◌, ℕ, IfOk, OnErr};
ghost use Rattle.iofd_refusals.specs.Checks.{ioas_alloc_checks};
ghost use Rattle.iofd_words.specs.FirstTrue.{first_true};
ghost use Rattle.iofd_words.specs.declared.event.Event.TheVariants as event;
ghost use Rattle.server_state.specs.Seen.{seen};
ghost use Rattle.server_state.specs.Step.{IsGranted, ShowsSame, Steps};

use area_map::Areas;
use iofd_words::{CallError, Cause, FileNo, NoMemory, Reply};
use server_state::{Held, State};
use std::alloc::Allocator;

/// Why it is refused, by the first row of the definitions that holds. None where nothing refuses it.
#[tactic(auto, using(server_state::proofs::Objects::fullness), unfolding(iofd_refusals::specs::Checks::ioas_alloc_checks))]
pub fn refusal<A: Allocator>(state: &State<A>, file: FileNo) -> Option<Cause>
    ensures { result ≡ first_true (ioas_alloc_checks (seen state.now) file) }
{
    if !state.objects.is_open(file) {
        return Some(Cause::Id);
    }
    if state.objects.is_full(file) {
        return Some(Cause::Full);
    }
    None
}

/// What it does where nothing refuses it: the file has one more address space, with no areas, under an unused id.
///
/// The only error is want of memory. It leaves the world as it was.
pub fn commit<A: Allocator + Copy>(state: &mut State<A>, file: FileNo) -> Result<Reply, NoMemory>
    requires { IsGranted (event.IoasAlloc file) state.old }
    ensures ok { IfOk result (λ reply. (at : ℕ) → Steps at (event.IoasAlloc file) state.old reply state.new) }
    ensures err { OnErr result (ShowsSame state.old state.new) }
{
    match state.objects.reserve(file) {
        Ok(_) => (),
        // The file is open and not full.
        Err(CallError::Refused(_)) => unreachable!(),
        Err(CallError::Memory(no_memory)) => return Err(no_memory),
    }
    let held = Held::Ioas(Areas::new(state.alloc));
    let id = state.objects.insert_reserved(file, held);
    Ok(Reply::Id(id))
}
