//! A device reads memory.

ghost use Rattle.std.specs.Prelude.{◌≡◌, ◌<◌, ◌≤◌, ℕ, IfErr, IfOk, IsTrue, List, None, length};
ghost use Rattle.std.specs.List.{list_any};
ghost use Rattle.iofd_words.specs.FirstTrue.{first_true};
ghost use Rattle.iofd_steps.specs.Look.{lawful_answers, query_checks};
ghost use Rattle.iofd_words.specs.Policy.{access_outcomes, fault_of, is_pass_at};
ghost use Rattle.iofd_words.specs.Record.{Record};
ghost use Rattle.iofd_words.specs.View.{view};
ghost use Rattle.iofd_words.specs.World.{World};
ghost use Rattle.iofd_words.specs.declared.query.Answer.TheVariants as answer;
ghost use Rattle.iofd_words.specs.declared.query.Query.TheVariants as queries;
ghost use Rattle.server_state.specs.Choice.{IsLooked};
ghost use Rattle.server_state.specs.Seen.{seen};
ghost use Rattle.server_state.specs.Shows.{Shows};
ghost use Rattle.server_state.specs.Step.{IsAsked, IsTidy};

use crate::access;
use crate::device_write::fault_of;
use iofd_words::{AccessKind, Answer, Burst, DeviceNo, FaultReason, FrameNo, Iova, PAGE_SIZE};
use server_state::State;
use std::alloc::Allocator;

/// What the device reads where nothing refuses it: the bytes, where they lie, or why its read is denied. Where it owes
/// the area a flush, it is denied.
pub fn bytes<A: Allocator>(
    state: &State<A>,
    device: DeviceNo,
    iova: Iova,
    len: u8,
) -> Result<&[u8], FaultReason>
    requires { IsAsked (queries.DeviceRead device iova len) state.now }
    ensures read { IfOk result (λ bytes. (at : ℕ) (w : World) (records : List (Record A)) → IsTidy at w
        → Shows w state.now → first_true (query_checks (view w) (queries.DeviceRead device iova len)) ≡ None
        → IsLooked (lawful_answers w records (queries.DeviceRead device iova len)) (answer.Read bytes.now)) }
    ensures some { IfOk result (λ bytes. 0 < length bytes.now) }
    ensures few { IfOk result (λ bytes. length bytes.now ≤ 64) }
    ensures denied { IfErr result (λ reason. (at : ℕ) (w : World) (records : List (Record A)) → IsTidy at w
        → Shows w state.now → first_true (query_checks (view w) (queries.DeviceRead device iova len)) ≡ None
        → IsLooked (lawful_answers w records (queries.DeviceRead device iova len))
        (answer.Fault (fault_of state.now.config device iova.0 AccessKind.Read reason))) }
{
    match access::outcome(state, device, iova.0, AccessKind::Read, None) {
        Ok(frame) => Ok(bytes_at(state, device, iova, len, frame)),
        Err(reason) => Err(reason),
    }
}

/// What the device is answered where nothing refuses it: those bytes, copied, or the fault by which its read is denied.
pub fn read<A: Allocator>(state: &State<A>, device: DeviceNo, iova: Iova, len: u8) -> Answer
    requires { IsAsked (queries.DeviceRead device iova len) state.now }
    ensures { (at : ℕ) (w : World) (records : List (Record A)) → IsTidy at w → Shows w state.now
        → first_true (query_checks (view w) (queries.DeviceRead device iova len)) ≡ None
        → IsLooked (lawful_answers w records (queries.DeviceRead device iova len)) result }
{
    match bytes(state, device, iova, len) {
        Ok(bytes) => Answer::Read(Burst::new(bytes).unwrap()),
        Err(reason) => denied(state, device, iova, reason),
    }
}

/// What the device is answered at a frame that was kept for it, where nothing refuses its read and the policy lets it
/// pass there: the bytes. No page table is walked.
pub fn cached<A: Allocator>(
    state: &State<A>,
    device: DeviceNo,
    iova: Iova,
    len: u8,
    frame: FrameNo,
) -> Answer
    requires asked { IsAsked (queries.CachedRead device iova len frame) state.now }
    requires passes { IsTrue (list_any (is_pass_at frame)
        (access_outcomes (seen state.now) device iova.0 AccessKind.Read)) }
    ensures { (at : ℕ) (w : World) (records : List (Record A)) → IsTidy at w → Shows w state.now
        → first_true (query_checks (view w) (queries.CachedRead device iova len frame)) ≡ None
        → IsLooked (lawful_answers w records (queries.CachedRead device iova len frame)) result }
{
    let bytes = bytes_at(state, device, iova, len, frame);
    Answer::Read(Burst::new(bytes).unwrap())
}

// The bytes at a frame at which the policy lets the read pass, where nothing refuses it.
fn bytes_at<A: Allocator>(
    state: &State<A>,
    device: DeviceNo,
    iova: Iova,
    len: u8,
    frame: FrameNo,
) -> &[u8]
    requires asked { IsAsked (queries.CachedRead device iova len frame) state.now }
    requires passes { IsTrue (list_any (is_pass_at frame)
        (access_outcomes (seen state.now) device iova.0 AccessKind.Read)) }
    ensures read { (at : ℕ) (w : World) (records : List (Record A)) → IsTidy at w → Shows w state.now
        → first_true (query_checks (view w) (queries.CachedRead device iova len frame)) ≡ None
        → IsLooked (lawful_answers w records (queries.CachedRead device iova len frame)) (answer.Read result.now) }
    ensures some { 0 < length result.now }
    ensures few { length result.now ≤ 64 }
{
    let offset = (iova.0 % PAGE_SIZE) as usize;
    state.pool.read(frame, offset, usize::from(len))
}

fn denied<A: Allocator>(
    state: &State<A>,
    device: DeviceNo,
    iova: Iova,
    reason: FaultReason,
) -> Answer
    ensures { result ≡ answer.Fault (fault_of state.now.config device iova.0 AccessKind.Read reason) }
{
    Answer::Fault(fault_of(&state.config, device, iova, AccessKind::Read, reason))
}
