//! Each question, refused or answered. None takes memory.

ghost use Rattle.std.specs.Prelude.{◌≡◌, ◌<◌, ◌≤◌, ℕ, IfSome, IsTrue, List, None, length};
ghost use Rattle.std.specs.Option.{option_map};
ghost use Rattle.iofd_words.specs.Attachments.{attachment_of};
ghost use Rattle.iofd_words.specs.FirstTrue.{first_true};
ghost use Rattle.iofd_steps.specs.Look.{answers_in, lawful_answers, query_checks};
ghost use Rattle.iofd_words.specs.Record.{Record};
ghost use Rattle.iofd_words.specs.View.{view};
ghost use Rattle.iofd_words.specs.World.{World};
ghost use Rattle.iofd_words.specs.declared.query.Answer.TheVariants as answer;
ghost use Rattle.iofd_words.specs.declared.query.Query.TheVariants as queries;
ghost use Rattle.iommufd_core.specs.Asked.{may_ask};
ghost use Rattle.iommufd_core.specs.TurnCounts.{AreTurns};
ghost use Rattle.server_state.specs.Choice.{IsLooked};
ghost use Rattle.server_state.specs.Seen.{seen};
ghost use Rattle.server_state.specs.Shows.{Shows};
ghost use Rattle.server_state.specs.Step.{IsAsked, IsKnown, IsTidy};

use crate::answer_in_place::AnswerInPlace;
use crate::turn_counts;
use access_pins::read as access_read;
use event_device_access::{access, device_read, walk};
use event_dirty::dirty_report;
use event_user_memory::{user_access, user_read};
use iofd_words::{Answer, Cause, DeviceNo, ObjId, Query, Refusal, UserNo};
use server_state::State;
use std::alloc::Allocator;

/// What is answered, where these are the devices' turns. A device that owes the area a flush is denied.
pub(crate) fn look<A: Allocator>(state: &State<A>, turns: &[u64], query: &Query) -> Answer
    requires known { IsKnown state.now }
    requires may { IsTrue (may_ask (seen state.now) query.now) }
    ensures { (at : ℕ) (w : World) (records : List (Record A)) → IsTidy at w → Shows w state.now
        → AreTurns turns.now state.now.config records
        → IsLooked (answers_in w records query.now) result }
{
    match refusal(state, query) {
        Some(cause) => Answer::Refused(Refusal { cause }),
        None => answer(state, turns, query),
    }
}

/// The same answer, whose bytes stay where they lie.
pub(crate) fn look_in_place<'a, A: Allocator>(
    state: &'a State<A>,
    turns: &[u64],
    query: &Query,
) -> AnswerInPlace<'a>
    requires known { IsKnown state.now }
    requires may { IsTrue (may_ask (seen state.now) query.now) }
    ensures { (at : ℕ) (w : World) (records : List (Record A)) → IsTidy at w → Shows w state.now
        → AreTurns turns.now state.now.config records
        → IsLooked (answers_in w records query.now) result }
{
    match bytes_of(state, query) {
        Some(bytes) => AnswerInPlace::read(bytes),
        None => AnswerInPlace::of(look(state, turns, query)),
    }
}

/// The bytes that are answered, where they lie; None where bytes aren't, or where they are those at a kept frame.
fn bytes_of<'a, A: Allocator>(state: &'a State<A>, query: &Query) -> Option<&'a [u8]>
    requires { IsKnown state.now }
    ensures read { IfSome result (λ bytes. (at : ℕ) (w : World) (records : List (Record A)) → IsTidy at w
        → Shows w state.now → IsLooked (answers_in w records query.now) (answer.Read bytes.now)) }
    ensures some { IfSome result (λ bytes. 0 < length bytes.now) }
    ensures few { IfSome result (λ bytes. length bytes.now ≤ 64) }
{
    match query {
        Query::DeviceRead { device, iova, len } => {
            if access::refusal(state, *device, *iova, usize::from(*len)).is_some() {
                return None;
            }
            device_read::bytes(state, *device, *iova, *len).ok()
        }
        Query::UserRead { user, va, len } => {
            if user_access::refusal(state, *user, *va, usize::from(*len)).is_some() {
                return None;
            }
            Some(user_read::bytes(state, *user, *va, *len))
        }
        Query::AccessRead {
            file,
            access,
            iova,
            len,
        } => {
            if access_read::refusal(state, *file, *access, *iova, *len).is_some() {
                return None;
            }
            Some(access_read::bytes(state, *file, *access, *iova, *len))
        }
        _ => None,
    }
}

/// Why the question is refused, if it is.
fn refusal<A: Allocator>(state: &State<A>, query: &Query) -> Option<Cause>
    requires { IsKnown state.now }
    ensures { result ≡ first_true (query_checks (seen state.now) query.now) }
{
    match query {
        Query::DeviceRead { device, iova, len }
        | Query::CachedRead {
            device,
            iova,
            len,
            ..
        } => access::refusal(state, *device, *iova, usize::from(*len)),
        Query::UserRead { user, va, len } => {
            user_access::refusal(state, *user, *va, usize::from(*len))
        }
        Query::AccessRead {
            file,
            access,
            iova,
            len,
        } => access_read::refusal(state, *file, *access, *iova, *len),
        Query::FreeFrames => None,
        Query::Held(user) => refusal_by_user(state, *user),
        Query::AttachedTo(device) | Query::Turns(device) | Query::WalkFor { device, .. } => {
            refusal_by_device(state, *device)
        }
        Query::Dirty { file, request } => dirty_report::refusal(state, *file, *request),
    }
}

/// What is answered to a question that nothing refuses.
fn answer<A: Allocator>(state: &State<A>, turns: &[u64], query: &Query) -> Answer
    requires asked { IsAsked query.now state.now }
    requires may { IsTrue (may_ask (seen state.now) query.now) }
    ensures { (at : ℕ) (w : World) (records : List (Record A)) → IsTidy at w → Shows w state.now
        → AreTurns turns.now state.now.config records → first_true (query_checks (view w) query.now) ≡ None
        → IsLooked (lawful_answers w records query.now) result }
{
    match query {
        Query::DeviceRead { device, iova, len } => device_read::read(state, *device, *iova, *len),
        Query::UserRead { user, va, len } => user_read::read(state, *user, *va, *len),
        Query::AccessRead {
            file,
            access,
            iova,
            len,
        } => access_read::read(state, *file, *access, *iova, *len),
        Query::FreeFrames => Answer::Count(u64::from(state.pool.free_count())),
        Query::Held(user) => Answer::Count(state.memory.held(*user)),
        Query::AttachedTo(device) => Answer::Attached(hwpt_of(state, *device)),
        // It isn't refused, so there is such a device.
        Query::Turns(device) => Answer::Count(turn_counts::count_for(turns, *device).unwrap_or(0)),
        Query::WalkFor { device, iova } => Answer::Walk(walk::walk_for(state, *device, iova.0)),
        Query::CachedRead {
            device,
            iova,
            len,
            frame,
        } => device_read::cached(state, *device, *iova, *len, *frame),
        Query::Dirty { file, request } => dirty_report::report(state, *file, *request),
    }
}

/// Why a question about the user's account is refused.
fn refusal_by_user<A: Allocator>(state: &State<A>, user: UserNo) -> Option<Cause>
    ensures { result ≡ first_true (query_checks (seen state.now) (queries.Held user)) }
{
    if state.config.has_user(user) {
        None
    } else {
        Some(Cause::Id)
    }
}

/// Why a question about a device is refused.
fn refusal_by_device<A: Allocator>(state: &State<A>, device: DeviceNo) -> Option<Cause>
    ensures { result ≡ first_true (query_checks (seen state.now) (queries.AttachedTo device)) }
{
    if state.config.has_device(device) {
        None
    } else {
        Some(Cause::Id)
    }
}

/// The hardware page table by which the device translates.
fn hwpt_of<A: Allocator>(state: &State<A>, device: DeviceNo) -> Option<ObjId>
    requires { IsKnown state.now }
    ensures { result ≡ option_map (λ a. a.hwpt) (attachment_of state.now.attachments.items device) }
{
    Some(state.attachment_of(device)?.hwpt)
}
