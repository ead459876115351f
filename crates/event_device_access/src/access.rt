//! What comes of a device's access (VT-d, "Address Translation").

ghost use Rattle.std.specs.Prelude.{◌≡◌, ◌-◌, ◌/◌, ◌^◌, ◌∷◌, [], false, nat_le};
ghost use Rattle.std.specs.List.{list_any};
ghost use Rattle.std.specs.Option.{option_copied, option_map_or};
ghost use Rattle.iofd_words.specs.Areas.{area_at};
ghost use Rattle.iofd_refusals.specs.Checks.{access_checks, is_interrupt};
ghost use Rattle.iofd_words.specs.Files as files;
ghost use Rattle.iofd_words.specs.FirstTrue.{first_true};
ghost use Rattle.iofd_words.specs.Pages.{crosses};
ghost use Rattle.iofd_words.specs.Policy as policy;
ghost use Rattle.iofd_words.specs.Width.{bits_of};
ghost use Rattle.server_state.specs.Held.{areas_at};
ghost use Rattle.iofd_words.specs.Policy.{is_pass_at};
ghost use Rattle.event_device_access.specs.Outcomes.{chosen_outcome, outcome_told, outcomes_of, passes_at};
ghost use Rattle.server_state.specs.Seen.{seen};
ghost use Rattle.server_state.specs.Step.{IsKnown};
ghost use Rattle.user_memory.specs.Memory.{pinned_frame};

use iofd_words::{
    AccessKind, Area, Attachment, Cause, Config, DeviceNo, FaultReason, FileNo, FrameNo, Iova,
    ObjId, ObjectKind, PAGE_SIZE, Phase,
};
use object_table::ObjectTable;
use page_table::Walk;
use server_state::accesses::crosses;
use server_state::{Held, State, lookups};
use std::alloc::Allocator;
use user_memory::UserMemory;

/// What may come of an access.
#[derive(Clone, Copy)]
enum Access {
    /// It passes, at this frame.
    Passes(FrameNo),
    /// It is denied.
    Denied(FaultReason),
    /// The device still owes a flush: the access may pass and may be denied.
    Either(FrameNo, FaultReason),
}

/// Why the device's access to so many bytes is refused, a read or a write.
pub fn refusal<A: Allocator>(
    state: &State<A>,
    device: DeviceNo,
    iova: Iova,
    len: usize,
) -> Option<Cause>
    requires { IsKnown state.now }
    ensures { result ≡ first_true (access_checks (seen state.now) device iova len) }
{
    if state.binding_of(device).is_none() {
        return Some(Cause::Id);
    }
    if crosses(iova.0, len) {
        return Some(Cause::Cross);
    }
    if is_interrupt(&state.config, device, iova.0) {
        return Some(Cause::InterruptRange);
    }
    None
}

/// Whether the address is one of the interrupt range of an x86 device.
fn is_interrupt<A: Allocator>(config: &Config<A>, device: DeviceNo, address: u64) -> bool
    ensures { result ≡ is_interrupt (files.device_of config.now device) address }
{
    match config.device(device) {
        Some(settings) => settings.is_interrupt(address),
        None => false,
    }
}

/// What may come of the device's access to this address. None where the area has no pin for the page, which
/// no run of the server leads to.
#[tactic(auto, unfolding(iofd_words::specs::Policy::access_outcomes))]
fn of_device<A: Allocator>(
    state: &State<A>,
    device: DeviceNo,
    address: u64,
    kind: AccessKind,
) -> Option<Access>
    requires { IsKnown state.now }
    ensures { outcomes_of result ≡ policy.access_outcomes (seen state.now) device address kind }
{
    let Some(attachment) = state.attachment_of(device) else {
        return Some(Access::Denied(FaultReason::NoContext));
    };
    if is_beyond(&state.config, device, address) {
        return Some(Access::Denied(FaultReason::BeyondWidth));
    }
    translated(state, device, *attachment, address, kind)
}

/// The frame at which the access passes, or why it is denied: at the cached frame, if there is one; else
/// where the device's page table leads with that right. It costs the levels of the page table, and looks at no area.
pub(crate) fn outcome<A: Allocator>(
    state: &State<A>,
    device: DeviceNo,
    address: u64,
    kind: AccessKind,
    cached: Option<FrameNo>,
) -> Result<FrameNo, FaultReason>
    requires { IsKnown state.now }
    ensures { outcome_told result
        ≡ chosen_outcome cached (policy.access_outcomes (seen state.now) device address kind) }
{
    if let Some(frame) = cached {
        return Ok(frame);
    }
    let Some(attachment) = state.attachment_of(device) else {
        return Err(FaultReason::NoContext);
    };
    if is_beyond(&state.config, device, address) {
        return Err(FaultReason::BeyondWidth);
    }
    let Attachment { file, hwpt, .. } = *attachment;
    match state.page_tables.walk(&state.pool, file, hwpt, address) {
        Walk::Hit { frame, rights } if rights.allow(kind) => Ok(frame),
        _ => Err(kind.denied()),
    }
}

/// Whether the policy lets the access pass at this frame.
pub fn may_pass<A: Allocator>(
    state: &State<A>,
    device: DeviceNo,
    address: u64,
    kind: AccessKind,
    frame: FrameNo,
) -> bool
    requires { IsKnown state.now }
    ensures { result ≡ list_any (is_pass_at frame) (policy.access_outcomes (seen state.now) device address kind) }
{
    match of_device(state, device, address, kind) {
        Some(Access::Passes(at)) | Some(Access::Either(at, _)) => at == frame,
        Some(Access::Denied(_)) | None => false,
    }
}

/// What comes of it where the device is attached.
fn translated<A: Allocator>(
    state: &State<A>,
    device: DeviceNo,
    attachment: Attachment,
    address: u64,
    kind: AccessKind,
) -> Option<Access>
    ensures { outcomes_of result ≡ policy.translated (seen state.now) device address kind attachment }
{
    let denied = Some(Access::Denied(kind.denied()));
    let Some(ObjectKind::Hwpt { ioas, .. }) = lookups::kind_of(
        &state.objects,
        attachment.file,
        attachment.hwpt,
    ) else {
        return denied;
    };
    match area_at(&state.objects, attachment.file, ioas, address) {
        Some(area) => at_area(&state.memory, device, address, kind, area),
        None => denied,
    }
}

/// The area of the address space that holds the address.
#[tactic(auto, using(server_state::proofs::Objects::no_space))]
fn area_at<A: Allocator>(
    table: &ObjectTable<Held<A>, A>,
    file: FileNo,
    ioas: ObjId,
    address: u64,
) -> Option<&Area>
    ensures { option_copied result ≡ area_at address (areas_at table.now.rows file ioas) }
{
    match lookups::areas_of(table, file, ioas) {
        Some(areas) => areas.at(address),
        None => None,
    }
}

/// What comes of it at the area that holds the address.
fn at_area<A: Allocator>(
    memory: &UserMemory<A>,
    device: DeviceNo,
    address: u64,
    kind: AccessKind,
    area: &Area,
) -> Option<Access>
    ensures { outcomes_of result ≡ policy.at_area (pinned_frame memory.now) device address kind (Some area.now) }
{
    if !area.rights.allow(kind) {
        return Some(Access::Denied(kind.denied()));
    }
    let page = address.saturating_sub(area.span.first()) / PAGE_SIZE;
    let frame = memory.frame(area.memory, page);
    by_phase(device, &area.phase, frame, kind.denied())
}

/// A live area lets it pass; a leaving one may, as long as the device owes a flush.
fn by_phase(
    device: DeviceNo,
    phase: &Phase,
    frame: Option<FrameNo>,
    denied: FaultReason,
) -> Option<Access>
    ensures { outcomes_of result ≡ policy.by_phase device phase.now (passes_at frame) (policy.Denied denied ∷ []) }
{
    match (phase, frame) {
        (Phase::Live, None) => None,
        (Phase::Live, Some(frame)) => Some(Access::Passes(frame)),
        (Phase::Leaving { owed, .. }, Some(frame)) if owed.contains(device) => {
            Some(Access::Either(frame, denied))
        }
        (Phase::Leaving { .. }, _) => Some(Access::Denied(denied)),
    }
}

/// Whether the address is at or above the width of the device's tables.
fn is_beyond<A: Allocator>(config: &Config<A>, device: DeviceNo, address: u64) -> bool
    ensures { result ≡ option_map_or (λ d. nat_le (2 ^ bits_of d.width) address)
        (files.device_of config.now device) false }
{
    match config.device(device) {
        Some(settings) => address >= settings.width().end(),
        None => false,
    }
}
