//! DeviceWrite: a device writes memory.

ghost use Rattle.std.specs.Prelude.{◌≡◌, ◌/◌, ℕ, IfOk, IsTrue, List, OnErr, OnOk};
ghost use Rattle.std.specs.Option.{option_map_or};
ghost use Rattle.iofd_words.specs.Attachments.{attachment_of};
ghost use Rattle.iofd_words.specs.Files as files;
ghost use Rattle.iofd_refusals.specs.Checks.{device_write_checks};
ghost use Rattle.iofd_words.specs.Dirty.{TrackedTable, marked_by};
ghost use Rattle.iofd_words.specs.FirstTrue.{first_true};
ghost use Rattle.iofd_words.specs.Policy as policy;
ghost use Rattle.iofd_words.specs.World.{World};
ghost use Rattle.iofd_words.specs.declared.event.Event.TheVariants as event;
ghost use Rattle.event_device_access.specs.FirstMark.{is_first_mark, takes_mark};
ghost use Rattle.event_device_access.specs.Tracked.{tracks_writes_of};
ghost use Rattle.server_state.specs.Seen.{seen};
ghost use Rattle.server_state.specs.Shows.{DirtyShown, Shows};
ghost use Rattle.server_state.specs.Step.{ChosenSteps, IsGrantedVia, IsKnown, IsTidy, ShowsSame};

use crate::access;
use iofd_words::{
    AccessKind, Attachment, Burst, Cause, Config, DeviceNo, Fault, FaultReason, FrameNo, Iova,
    NoMemory, PAGE_SIZE, Reply, SourceId,
};
use server_state::State;
use std::alloc::Allocator;

/// Why it is refused, by the first row of the definitions that holds. None where nothing refuses it.
#[tactic(auto, unfolding(iofd_refusals::specs::Checks::device_write_checks))]
pub fn refusal<A: Allocator>(
    state: &State<A>,
    device: DeviceNo,
    iova: Iova,
    bytes: &Burst,
) -> Option<Cause>
    requires { IsKnown state.now }
    ensures { result ≡ first_true (device_write_checks (seen state.now) device iova bytes.now) }
{
    access::refusal(state, device, iova, bytes.as_slice().len())
}

/// How a denial is told.
pub(crate) fn fault_of<A: Allocator>(
    config: &Config<A>,
    device: DeviceNo,
    iova: Iova,
    kind: AccessKind,
    reason: FaultReason,
) -> Fault
    ensures { result ≡ policy.fault_of config.now device iova.0 kind reason }
{
    Fault {
        source: source_of(config, device),
        page: iova.0 / PAGE_SIZE,
        kind,
        reason,
    }
}

fn source_of<A: Allocator>(config: &Config<A>, device: DeviceNo) -> SourceId
    ensures { result ≡ option_map_or (λ d. d.source) (files.device_of config.now device) (record { 0 = 0 }) }
{
    match config.device(device) {
        Some(settings) => settings.source(),
        None => SourceId(0),
    }
}

/// What it does where nothing refuses it. With a cached frame the write passes there; without one it passes
/// where the policy lets it, and is denied while the device owes the area a flush. Where it passes, the page is marked
/// if the device's page table is tracked.
///
/// The only error is want of memory for the mark, where the write passes, the page table is tracked and no page of the
/// same word of 64 is marked there. It leaves the world as it was.
///
/// It is part of its caller, so that its reply isn't read back from memory while the bytes that it writes are still on
/// their way to the cache.
#[inline(always)]
pub fn commit<A: Allocator + Copy>(
    state: &mut State<A>,
    device: DeviceNo,
    iova: Iova,
    bytes: &Burst,
    via: Option<FrameNo>,
) -> Result<Reply, NoMemory>
    requires { IsGrantedVia (event.DeviceWrite device iova bytes.now) via state.old }
    ensures ok { IfOk result (λ reply. (at : ℕ) →
        ChosenSteps at (event.DeviceWrite device iova bytes.now) via state.old reply state.new) }
    ensures err { OnErr result (ShowsSame state.old state.new) }
    ensures memory { OnErr result (IsTrue (tracks_writes_of (seen state.old) device)) }
    ensures lacking { OnErr result ((at : ℕ) (w : World) → IsTidy at w → Shows w state.old →
        IsTrue (takes_mark w device iova.0 via)) }
{
    match access::outcome(state, device, iova.0, AccessKind::Write, via) {
        Ok(frame) => {
            mark(state, device, iova)?;
            let offset = (iova.0 % PAGE_SIZE) as usize;
            state.pool.write(frame, offset, bytes.as_slice());
            Ok(Reply::Passed(frame))
        }
        Err(reason) => Ok(Reply::Fault(fault_of(
            &state.config,
            device,
            iova,
            AccessKind::Write,
            reason,
        ))),
    }
}

/// Marks the page of the address, where the page table by which the device translates is tracked. Memory is wanting
/// only for the first mark of its word of 64 pages.
fn mark<A: Allocator + Copy>(
    state: &mut State<A>,
    device: DeviceNo,
    iova: Iova,
) -> Result<(), NoMemory>
    requires { IsKnown state.old }
    ensures others { state.new ≡ record state.old { dirty = state.new.dirty } }
    ensures marks { OnOk result ((tracked : List TrackedTable) → DirtyShown tracked state.old.dirty
        → DirtyShown (marked_by (attachment_of state.old.attachments.items device) (iova.0 / 4096) tracked)
        state.new.dirty) }
    ensures err { OnErr result (state.new ≡ state.old) }
    ensures memory { OnErr result (IsTrue (tracks_writes_of (seen state.old) device)) }
    ensures lacking { OnErr result ((tracked : List TrackedTable) → DirtyShown tracked state.old.dirty
        → IsTrue (is_first_mark (attachment_of state.old.attachments.items device) (iova.0 / 4096) tracked)) }
{
    let Some(attachment) = state.attachment_of(device) else {
        // A device that isn't attached writes nothing.
        return Ok(());
    };
    let Attachment { file, hwpt, .. } = *attachment;
    state.dirty.mark(file, hwpt, iova.0 / PAGE_SIZE)
}
