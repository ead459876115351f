//! UserWrite: a user writes its own memory.

ghost use Rattle.std.specs.Prelude.{◌≡◌, ℕ};
ghost use Rattle.iofd_refusals.specs.Checks.{user_write_checks};
ghost use Rattle.iofd_words.specs.FirstTrue.{first_true};
ghost use Rattle.iofd_words.specs.declared.event.Event.TheVariants as event;
ghost use Rattle.server_state.specs.Seen.{seen};
ghost use Rattle.server_state.specs.Step.{IsGranted, Steps};

use crate::user_access;
use iofd_words::{Burst, Cause, PAGE_SIZE, Reply, UserNo};
use server_state::State;
use std::alloc::Allocator;

/// Why it is refused, by the first row of the definitions that holds. None where nothing refuses it.
#[tactic(auto, unfolding(iofd_refusals::specs::Checks::user_write_checks))]
pub fn refusal<A: Allocator>(
    state: &State<A>,
    user: UserNo,
    va: u64,
    bytes: &Burst,
) -> Option<Cause>
    ensures { result ≡ first_true (user_write_checks (seen state.now) user va bytes.now) }
{
    user_access::refusal(state, user, va, bytes.as_slice().len())
}

/// What it does where nothing refuses it: the bytes stand in the page's frame, from the address's offset on. It takes
/// no memory.
pub fn commit<A: Allocator>(state: &mut State<A>, user: UserNo, va: u64, bytes: &Burst) -> Reply
    requires { IsGranted (event.UserWrite user va bytes.now) state.old }
    ensures { (at : ℕ) → Steps at (event.UserWrite user va bytes.now) state.old result state.new }
{
    // Nothing refuses it: so the user has the page.
    if let Some(frame) = state.memory.frame_at(user, va) {
        let offset = (va % PAGE_SIZE) as usize;
        state.pool.write(frame, offset, bytes.as_slice());
    }
    Reply::Done
}
