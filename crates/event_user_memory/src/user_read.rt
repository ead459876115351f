//! A user reads its own memory.

ghost use Rattle.std.specs.Prelude.{◌≡◌, ◌<◌, ◌≤◌, ℕ, List, None, length};
ghost use Rattle.iofd_words.specs.FirstTrue.{first_true};
ghost use Rattle.iofd_steps.specs.Look.{lawful_answers, query_checks};
ghost use Rattle.iofd_words.specs.Record.{Record};
ghost use Rattle.iofd_words.specs.View.{view};
ghost use Rattle.iofd_words.specs.World.{World};
ghost use Rattle.iofd_words.specs.declared.query.Answer.TheVariants as answer;
ghost use Rattle.iofd_words.specs.declared.query.Query.TheVariants as queries;
ghost use Rattle.server_state.specs.Choice.{IsLooked};
ghost use Rattle.server_state.specs.Shows.{Shows};
ghost use Rattle.server_state.specs.Step.{IsAsked, IsTidy};

use iofd_words::{Answer, Burst, PAGE_SIZE, UserNo};
use server_state::State;
use std::alloc::Allocator;

/// What the user reads where nothing refuses it: the bytes, where they lie, in the page's frame from the address's
/// offset on.
pub fn bytes<A: Allocator>(state: &State<A>, user: UserNo, va: u64, len: u8) -> &[u8]
    requires { IsAsked (queries.UserRead user va len) state.now }
    ensures read { (at : ℕ) (w : World) (records : List (Record A)) → IsTidy at w → Shows w state.now
        → first_true (query_checks (view w) (queries.UserRead user va len)) ≡ None
        → IsLooked (lawful_answers w records (queries.UserRead user va len)) (answer.Read result.now) }
    ensures some { 0 < length result.now }
    ensures few { length result.now ≤ 64 }
{
    let Some(frame) = state.memory.frame_at(user, va) else {
        // Nothing refuses it: so the user has the page.
        unreachable!()
    };
    let offset = (va % PAGE_SIZE) as usize;
    state.pool.read(frame, offset, usize::from(len))
}

/// What the user is answered where nothing refuses it: those bytes, copied.
pub fn read<A: Allocator>(state: &State<A>, user: UserNo, va: u64, len: u8) -> Answer
    requires { IsAsked (queries.UserRead user va len) state.now }
    ensures { (at : ℕ) (w : World) (records : List (Record A)) → IsTidy at w → Shows w state.now
        → first_true (query_checks (view w) (queries.UserRead user va len)) ≡ None
        → IsLooked (lawful_answers w records (queries.UserRead user va len)) result }
{
    Answer::Read(Burst::new(bytes(state, user, va, len)).unwrap())
}
