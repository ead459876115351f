//! UserMap: a page of a user's memory gets a frame.

ghost use Rattle.std.specs.Prelude.{◌≡◌, ℕ, Option, IfOk, OnErr};
ghost use Rattle.iofd_refusals.specs.Checks.{user_map_checks};
ghost use Rattle.iofd_words.specs.FirstTrue.{first_true};
ghost use Rattle.iofd_words.specs.declared.event.Event.TheVariants as event;
ghost use Rattle.iofd_words.specs.declared.numbers.FrameNo.{FrameNo};
ghost use Rattle.server_state.specs.Seen.{seen};
ghost use Rattle.server_state.specs.Step.{ChosenSteps, IsGranted, ShowsSame};

use iofd_words::{Cause, NoMemory, PAGE_SIZE, Reply, USER_END, UserNo};
use server_state::State;
use std::alloc::Allocator;

/// Why it is refused, by the first row of the definitions that holds. None where nothing refuses it.
#[tactic(auto, unfolding(iofd_refusals::specs::Checks::user_map_checks))]
pub fn refusal<A: Allocator>(state: &State<A>, user: UserNo, va: u64) -> Option<Cause>
    ensures { result ≡ first_true (user_map_checks (seen state.now) user va) }
{
    if !state.config.has_user(user) {
        return Some(Cause::Id);
    }
    if va % PAGE_SIZE != 0 || va >= USER_END {
        return Some(Cause::Align);
    }
    if state.memory.frame_at(user, va).is_some() {
        return Some(Cause::Overlap);
    }
    if state.pool.free_count() == 0 {
        return Some(Cause::Frames);
    }
    None
}

/// What it does where nothing refuses it: the page gets the least frame that nobody reaches, and reads zero.
///
/// The only error is want of memory. It leaves the world as it was.
pub fn commit<A: Allocator + Copy>(
    state: &mut State<A>,
    user: UserNo,
    va: u64,
) -> Result<Reply, NoMemory>
    requires { IsGranted (event.UserMap user va) state.old }
    ensures ok { IfOk result (λ reply. (at : ℕ) (via : Option FrameNo)
        → ChosenSteps at (event.UserMap user va) via state.old reply state.new) }
    ensures err { OnErr result (ShowsSame state.old state.new) }
{
    let frame = state.memory.map_page(&mut state.pool, user, va)?;
    Ok(Reply::Frame(frame))
}
