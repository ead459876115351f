//! What users may have pinned.

ghost use Rattle.std.specs.Prelude.{◌≡◌, IfSome, IsTrue};
ghost use Rattle.iofd_refusals.specs.Checks.{passes_limit};
ghost use Rattle.iofd_words.specs.Files.{is_user, user_of};
ghost use Rattle.server_state.specs.Seen.{seen};
ghost use Rattle.server_state.specs.Step.{IsKnown};

use crate::state::State;
use iofd_words::{Config, FileNo, UserNo};
use std::alloc::Allocator;

/// Whether the file's user would have more pinned pages than the limit allows, with so many more.
pub fn passes_limit<A: Allocator>(state: &State<A>, file: FileNo, count: u128) -> bool
    requires { IsKnown state.now }
    ensures { result ≡ passes_limit (seen state.now) (user_of state.now.config file) count }
{
    match state.config.user_of(file) {
        Some(user) => state.config.has_user(user) && !state.memory.has_room(user, count),
        None => false,
    }
}

/// The file's user, who is one of the users; None where there is no such file.
pub fn user_of<A: Allocator>(config: &Config<A>, file: FileNo) -> Option<UserNo>
    ensures value { result ≡ user_of config.now file }
    ensures known { IfSome result (λ user. IsTrue (is_user config.now user)) }
{
    config.facts();
    config.user_of(file)
}
