//! UserUnmap: a page goes out of a user's memory.

ghost use Rattle.std.specs.Prelude.{◌≡◌, ℕ};
ghost use Rattle.iofd_refusals.specs.Checks.{user_unmap_checks};
ghost use Rattle.iofd_words.specs.FirstTrue.{first_true};
ghost use Rattle.iofd_words.specs.declared.event.Event.TheVariants as event;
ghost use Rattle.server_state.specs.Seen.{seen};
ghost use Rattle.server_state.specs.Step.{IsGranted, Steps};

use iofd_words::{Cause, PAGE_SIZE, Reply, USER_END, UserNo};
use server_state::State;
use std::alloc::Allocator;

/// Why it is refused, by the first row of the definitions that holds. None where nothing refuses it.
#[tactic(auto, unfolding(iofd_refusals::specs::Checks::user_unmap_checks))]
pub fn refusal<A: Allocator>(state: &State<A>, user: UserNo, va: u64) -> Option<Cause>
    ensures { result ≡ first_true (user_unmap_checks (seen state.now) user va) }
{
    if !state.config.has_user(user) {
        return Some(Cause::Id);
    }
    if va % PAGE_SIZE != 0 || va >= USER_END {
        return Some(Cause::Align);
    }
    if state.memory.frame_at(user, va).is_none() {
        return Some(Cause::Absent);
    }
    None
}

/// What it does where nothing refuses it: the page goes. Pins of it stay at its frame, which is free only without them.
/// It takes no memory.
pub fn commit<A: Allocator>(state: &mut State<A>, user: UserNo, va: u64) -> Reply
    requires { IsGranted (event.UserUnmap user va) state.old }
    ensures { (at : ℕ) → Steps at (event.UserUnmap user va) state.old result state.new }
{
    state.memory.unmap_page(&mut state.pool, user, va);
    Reply::Done
}
