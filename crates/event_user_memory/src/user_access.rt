//! Why a user's access to its own memory is refused.

ghost use Rattle.std.specs.Prelude.{◌≡◌};
ghost use Rattle.iofd_refusals.specs.Checks.{user_access_checks};
ghost use Rattle.iofd_words.specs.FirstTrue.{first_true};
ghost use Rattle.server_state.specs.Seen.{seen};

use iofd_words::{Cause, UserNo};
use server_state::State;
use server_state::accesses::crosses;
use std::alloc::Allocator;

/// Why the user's access to so many bytes from the address on is refused, a read or a write.
pub fn refusal<A: Allocator>(state: &State<A>, user: UserNo, va: u64, len: usize) -> Option<Cause>
    ensures { result ≡ first_true (user_access_checks (seen state.now) user va len) }
{
    if !state.config.has_user(user) {
        return Some(Cause::Id);
    }
    if crosses(va, len) {
        return Some(Cause::Cross);
    }
    if state.memory.frame_at(user, va).is_none() {
        return Some(Cause::Absent);
    }
    None
}
