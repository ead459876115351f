//! Each event, refused or carried out.

ghost use Rattle.std.specs.Prelude.{◌≡◌, ℕ, true, None, [], IfOk, IsTrue, OnErr, OnOk};
ghost use Rattle.iofd_refusals.specs.Checks.{checks};
ghost use Rattle.iofd_words.specs.FirstTrue.{first_true};
ghost use Rattle.iofd_words.specs.Record.{is_report};
ghost use Rattle.iofd_words.specs.View.{view};
ghost use Rattle.iofd_words.specs.World.{World};
ghost use Rattle.server_state.specs.Seen.{seen};
ghost use Rattle.server_state.specs.Shows.{Shows};
ghost use Rattle.iommufd_core.specs.Moved.{MovesNone, MovesOneWay};
ghost use Rattle.iommufd_core.specs.Server.{is_in_place, may_lack, takes_memory};
ghost use Rattle.server_state.specs.Step.{Answered, IsCalled, IsGrantedFor, IsKnown, IsTidy, MovingSteps};
ghost use Rattle.server_state.specs.Step.{TidyShowsSame};

use access_pins::{
    attach as access_attach, create, detach as access_detach, pin as access_pin,
    unpin as access_unpin, write as access_write,
};
use event_destroy::{close, destroy};
use event_device_access::device_write;
use event_dirty::{dirty_enable, dirty_report};
use event_ioas::{allow_iovas, ioas_alloc};
use event_map::{copy, map};
use event_unmap::unmap;
use event_user_memory::{user_map, user_unmap, user_write};
use hwpt_device::{attach, bind, detach, flush, hwpt_alloc, unbind};
use iofd_words::{Act, Cause, Event, FrameNo, NoMemory, Refusal, Reply};
use server_state::State;
use std::alloc::Allocator;

/// Answers the event, at this position, and carries it out if nothing refuses it. The frames that it takes for tables
/// and gives back are listed, each list in the order of its record; no event does both, and a report moves none. An error
/// leaves the world as it was.
///
/// It is part of its only caller, as `commit` is of it: a reply handed over in memory would be read back while the
/// stores before it, an access's own among them, are still on their way to the cache.
#[inline(always)]
pub(crate) fn answer<A: Allocator + Copy>(
    state: &mut State<A>,
    at: u64,
    act: &Act<A>,
    taken: &mut Vec<FrameNo, A>,
    given: &mut Vec<FrameNo, A>,
) -> Result<Reply, NoMemory>
    requires called { IsCalled at act.now.event act.now.via state.old }
    requires none_taken { taken.old.items ≡ [] }
    requires none_given { given.old.items ≡ [] }
    ensures ok { IfOk result (λ reply.
        Answered at act.now.event act.now.via state.old reply taken.new.items given.new.items state.new) }
    ensures one_way { OnOk result (MovesOneWay taken.new.items given.new.items) }
    ensures reports { IfOk result (λ reply. MovesNone (is_report reply) taken.new.items given.new.items) }
    ensures err { OnErr result (TidyShowsSame at state.old state.new) }
    ensures memory { OnErr result ((first_true (checks (seen state.old) act.now.event) ≡ None)
        × IsTrue (takes_memory (seen state.old) act.now.event)) }
    ensures lacking { OnErr result ((at : ℕ) (w : World) → IsTidy at w → Shows w state.old →
        first_true (checks (view w) act.now.event) ≡ None → IsTrue (may_lack w act.now.event act.now.via)) }
{
    match refusal(state, &act.event) {
        Some(cause) => Ok(Reply::Refused(Refusal { cause })),
        None => commit(state, at, act, taken, given),
    }
}

/// Why the event is refused, if it is. It wants for no memory.
fn refusal<A: Allocator + Copy>(state: &State<A>, event: &Event<A>) -> Option<Cause>
    requires { IsKnown state.now }
    ensures { result ≡ first_true (checks (seen state.now) event.now) }
{
    match event {
        Event::IoasAlloc(file) => ioas_alloc::refusal(state, *file),
        Event::AllowIovas(file, ioas, ranges) => {
            allow_iovas::refusal(state, *file, *ioas, ranges.as_slice())
        }
        Event::Map(file, request) => map::refusal(state, *file, *request),
        Event::Copy(file, request) => copy::refusal(state, *file, *request),
        Event::Unmap(file, request) => unmap::refusal(state, *file, *request),
        Event::HwptAlloc(file, request) => hwpt_alloc::refusal(state, *file, *request),
        Event::Destroy(file, id) => destroy::refusal(state, *file, *id),
        Event::Close(file) => close::refusal(state, *file),
        Event::UserMap(user, va) => user_map::refusal(state, *user, *va),
        Event::UserUnmap(user, va) => user_unmap::refusal(state, *user, *va),
        Event::UserWrite(user, va, bytes) => user_write::refusal(state, *user, *va, bytes),
        Event::Bind(file, device) => bind::refusal(state, *file, *device),
        Event::Unbind(file, id) => unbind::refusal(state, *file, *id),
        Event::Attach(device, pt_id) => attach::refusal(state, *device, *pt_id),
        Event::Detach(device) => detach::refusal(state, *device),
        Event::Flush(device) => flush::refusal(state, *device),
        Event::DeviceWrite(device, iova, bytes) => {
            device_write::refusal(state, *device, *iova, bytes)
        }
        Event::AccessCreate(file) => create::refusal(state, *file),
        Event::AccessAttach(file, id, ioas) => access_attach::refusal(state, *file, *id, *ioas),
        Event::AccessDetach(file, id) => access_detach::refusal(state, *file, *id),
        Event::AccessPin(file, id, request) => access_pin::refusal(state, *file, *id, *request),
        Event::AccessUnpin(file, id, request) => access_unpin::refusal(state, *file, *id, *request),
        Event::AccessWrite(file, id, iova, bytes) => {
            access_write::refusal(state, *file, *id, *iova, bytes)
        }
        Event::DirtyEnable(file, hwpt, _) => dirty_enable::refusal(state, *file, *hwpt),
        Event::DirtyClear(file, request) => dirty_report::refusal(state, *file, *request),
    }
}

/// Carries out an event that nothing refuses, at this position. An error leaves the world as it was.
#[inline(always)]
fn commit<A: Allocator + Copy>(
    state: &mut State<A>,
    at: u64,
    act: &Act<A>,
    taken: &mut Vec<FrameNo, A>,
    given: &mut Vec<FrameNo, A>,
) -> Result<Reply, NoMemory>
    requires granted { IsGrantedFor at act.now.event act.now.via state.old }
    requires none_taken { taken.old.items ≡ [] }
    requires none_given { given.old.items ≡ [] }
    ensures ok { IfOk result (λ reply.
        MovingSteps at act.now.event act.now.via state.old reply taken.new.items given.new.items state.new) }
    ensures one_way { OnOk result (MovesOneWay taken.new.items given.new.items) }
    ensures reports { IfOk result (λ reply. MovesNone (is_report reply) taken.new.items given.new.items) }
    ensures err { OnErr result (TidyShowsSame at state.old state.new) }
    ensures memory { OnErr result (IsTrue (takes_memory (seen state.old) act.now.event)) }
    ensures lacking { OnErr result ((at : ℕ) (w : World) → IsTidy at w → Shows w state.old →
        first_true (checks (view w) act.now.event) ≡ None → IsTrue (may_lack w act.now.event act.now.via)) }
{
    match &act.event {
        Event::IoasAlloc(file) => ioas_alloc::commit(state, *file),
        Event::AllowIovas(file, ioas, ranges) => {
            allow_iovas::commit(state, *file, *ioas, ranges)
        }
        Event::Map(file, request) => map::commit(state, at, *file, *request, taken),
        Event::Copy(file, request) => copy::commit(state, *file, *request, taken),
        Event::Unmap(file, request) => unmap::commit(state, *file, *request, given),
        Event::HwptAlloc(file, request) => hwpt_alloc::commit(state, *file, *request, taken),
        Event::Destroy(file, id) => destroy::commit(state, *file, *id, given),
        Event::Close(file) => close::commit(state, *file, given),
        Event::UserMap(user, va) => user_map::commit(state, *user, *va),
        Event::Bind(file, device) => bind::commit(state, *file, *device),
        Event::Attach(device, pt_id) => attach::commit(state, *device, *pt_id, taken),
        Event::Detach(device) => detach::commit(state, *device, given),
        Event::DeviceWrite(device, iova, bytes) => {
            device_write::commit(state, *device, *iova, bytes, act.via)
        }
        Event::AccessCreate(file) => create::commit(state, *file),
        Event::AccessPin(file, id, request) => access_pin::commit(state, *file, *id, *request),
        Event::DirtyEnable(file, hwpt, on) => dirty_enable::commit(state, *file, *hwpt, *on),
        _ => Ok(commit_in_place(state, at, act)),
    }
}

/// Carries out an event that nothing refuses, at this position, and that takes no memory and moves no frames of tables.
/// It stands apart, so that no other event waits while room for these replies is cleared.
fn commit_in_place<A: Allocator + Copy>(state: &mut State<A>, at: u64, act: &Act<A>) -> Reply
    requires in_place { is_in_place act.now.event ≡ true }
    requires granted { IsGrantedFor at act.now.event act.now.via state.old }
    ensures { MovingSteps at act.now.event act.now.via state.old result [] [] state.new }
{
    match &act.event {
        Event::UserUnmap(user, va) => user_unmap::commit(state, *user, *va),
        Event::UserWrite(user, va, bytes) => user_write::commit(state, *user, *va, bytes),
        Event::Unbind(file, id) => unbind::commit(state, *file, *id),
        Event::Flush(device) => flush::commit(state, *device),
        Event::AccessAttach(file, id, ioas) => access_attach::commit(state, *file, *id, *ioas),
        Event::AccessDetach(file, id) => access_detach::commit(state, *file, *id),
        Event::AccessUnpin(file, id, request) => access_unpin::commit(state, *file, *id, *request),
        Event::AccessWrite(file, id, iova, bytes) => {
            access_write::commit(state, *file, *id, *iova, bytes)
        }
        Event::DirtyClear(file, request) => dirty_report::commit(state, *file, *request),
        _ => unreachable!(),
    }
}
