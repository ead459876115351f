//! AccessRead: an access object reads what it has pinned.

ghost use Rattle.std.specs.Prelude.{◌≡◌, ◌<◌, ◌≤◌, ℕ, List, None, length};
ghost use Rattle.iofd_words.specs.FirstTrue.{first_true};
ghost use Rattle.iofd_steps.specs.Look.{lawful_answers, query_checks};
ghost use Rattle.iofd_words.specs.Record.{Record};
ghost use Rattle.iofd_words.specs.View.{view};
ghost use Rattle.iofd_words.specs.World.{World};
ghost use Rattle.iofd_words.specs.declared.query.Answer.TheVariants as answer;
ghost use Rattle.iofd_words.specs.declared.query.Query.TheVariants as queries;
ghost use Rattle.server_state.specs.Choice.{IsLooked};
ghost use Rattle.server_state.specs.Seen.{seen};
ghost use Rattle.server_state.specs.Shows.{Shows};
ghost use Rattle.server_state.specs.Step.{IsAsked, IsKnown, IsTidy};

use crate::held_access;
use iofd_words::{AccessKind, Answer, Burst, Cause, FileNo, Iova, ObjId, PAGE_SIZE};
use server_state::State;
use std::alloc::Allocator;

/// Why the question is refused, by the first row of the definitions that holds. None where nothing refuses it.
///
/// Refused by 11 (ENOENT, `Cause::Id`) where the file isn't open or has no access object of this id, then by 28
/// (ENOENT, `Cause::Unattached`) where that isn't attached, then by 26 (EINVAL, `Cause::Cross`) where the bytes are
/// none or more than 64, or leave the page, and then by 18 (EINVAL, `Cause::NotHeld`) where no pin of it covers the
/// page.
pub fn refusal<A: Allocator>(
    state: &State<A>,
    file: FileNo,
    access: ObjId,
    iova: Iova,
    len: u8,
) -> Option<Cause>
    requires { IsKnown state.now }
    ensures { result ≡ first_true (query_checks (seen state.now) (queries.AccessRead file access iova len)) }
{
    held_access::refusal(
        state,
        file,
        access,
        iova,
        usize::from(len),
        AccessKind::Read,
    )
}

/// What the access object reads where nothing refuses it: the bytes, where they lie, in the frame at which the page is
/// pinned, from the address's offset on, whatever its user's memory has there now.
pub fn bytes<A: Allocator>(
    state: &State<A>,
    file: FileNo,
    access: ObjId,
    iova: Iova,
    len: u8,
) -> &[u8]
    requires { IsAsked (queries.AccessRead file access iova len) state.now }
    ensures read { (at : ℕ) (w : World) (records : List (Record A)) → IsTidy at w → Shows w state.now
        → first_true (query_checks (view w) (queries.AccessRead file access iova len)) ≡ None
        → IsLooked (lawful_answers w records (queries.AccessRead file access iova len)) (answer.Read result.now) }
    ensures some { 0 < length result.now }
    ensures few { length result.now ≤ 64 }
{
    let Some(frame) = held_access::frame_at(state, file, access, iova.0) else {
        // Nothing refuses it: so a pin covers the page, which has a frame.
        unreachable!()
    };
    let offset = (iova.0 % PAGE_SIZE) as usize;
    state.pool.read(frame, offset, usize::from(len))
}

/// What the access object is answered where nothing refuses it: those bytes, copied.
pub fn read<A: Allocator>(
    state: &State<A>,
    file: FileNo,
    access: ObjId,
    iova: Iova,
    len: u8,
) -> Answer
    requires { IsAsked (queries.AccessRead file access iova len) state.now }
    ensures { (at : ℕ) (w : World) (records : List (Record A)) → IsTidy at w → Shows w state.now
        → first_true (query_checks (view w) (queries.AccessRead file access iova len)) ≡ None
        → IsLooked (lawful_answers w records (queries.AccessRead file access iova len)) result }
{
    Answer::Read(Burst::new(bytes(state, file, access, iova, len)).unwrap())
}
