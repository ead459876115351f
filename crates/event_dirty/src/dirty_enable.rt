//! DIRTY_ENABLE: a page table's written pages are tracked, or no more.

ghost use Rattle.std.specs.Prelude.{◌≡◌, ℕ, IfOk, IsTrue, OnErr};
ghost use Rattle.iofd_refusals.specs.Checks.{dirty_enable_checks};
ghost use Rattle.iofd_words.specs.FirstTrue.{first_true};
ghost use Rattle.iofd_words.specs.declared.event.Event.TheVariants as event;
ghost use Rattle.server_state.specs.Seen.{seen};
ghost use Rattle.server_state.specs.Step.{IsKnown, ShowsSame, Steps};

use crate::dirty_report::is_hwpt;
use iofd_words::{Cause, FileNo, NoMemory, ObjId, Reply};
use server_state::State;
use std::alloc::Allocator;

/// Why it is refused, by the first row of the definitions that holds. None where nothing refuses it.
///
/// Refused by 11 (ENOENT, `Cause::Id`) where the file isn't open or has no hardware page table of this id.
#[tactic(auto, unfolding(iofd_refusals::specs::Checks::dirty_enable_checks))]
pub fn refusal<A: Allocator>(state: &State<A>, file: FileNo, hwpt: ObjId) -> Option<Cause>
    requires { IsKnown state.now }
    ensures { result ≡ first_true (dirty_enable_checks (seen state.now) file hwpt) }
{
    if !state.objects.is_open(file) {
        return Some(Cause::Id);
    }
    if !is_hwpt(state, file, hwpt) {
        return Some(Cause::Id);
    }
    None
}

/// What it does where nothing refuses it: the pages that devices write through the page table are tracked from now on,
/// or no more. None is marked then, whether it was tracked before or not.
///
/// The only error is want of memory, where tracking is turned on. It leaves the world as it was.
pub fn commit<A: Allocator + Copy>(
    state: &mut State<A>,
    file: FileNo,
    hwpt: ObjId,
    on: bool,
) -> Result<Reply, NoMemory>
    ensures ok { IfOk result (λ reply. (at : ℕ) →
        Steps at (event.DirtyEnable file hwpt on) state.old reply state.new) }
    ensures err { OnErr result (ShowsSame state.old state.new) }
    ensures memory { OnErr result (IsTrue on) }
{
    if on {
        state.dirty.start(file, hwpt)?;
    } else {
        state.dirty.stop(file, hwpt);
    }
    Ok(Reply::Done)
}
