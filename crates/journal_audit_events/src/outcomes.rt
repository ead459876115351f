//! What may come of a device's access.

ghost use Rattle.std.specs.Prelude.{◌≡◌, ◌∷◌, ◌^◌, [], Some, None, false, nat_le};
ghost use Rattle.std.specs.Option.{option_copied};
ghost use Rattle.iofd_words.specs.Files.{device_of};
ghost use Rattle.iofd_words.specs.Pins.{pinned_frame};
ghost use Rattle.iofd_words.specs.Policy.{Denied, at_area, by_phase, outcomes, passing, translated};
ghost use Rattle.iofd_words.specs.View.{view};
ghost use Rattle.iofd_words.specs.Width.{bits_of};
ghost use Rattle.journal_audit_events.specs.Outcomes.{outcomes_in};

use iofd_words::{AccessKind, Area, Attachment, DeviceNo, FaultReason, FrameNo, Iova, Phase, Pin};
use journal_audit_world::{World, areas, attachments, pins};
use std::alloc::Allocator;

/// The frame at which an access may pass, if it may, and why it may be denied, if it may.
#[derive(Clone, Copy)]
pub struct Outcomes {
    pub frame: Option<FrameNo>,
    pub reason: Option<FaultReason>,
}

// It is denied for this reason.
fn denied(reason: FaultReason) -> Outcomes
    ensures { outcomes_in result ≡ Denied reason ∷ [] }
{
    Outcomes {
        frame: None,
        reason: Some(reason),
    }
}

/// What may come of a device's access at this address.
#[tactic(auto, unfolding(iofd_words::specs::Policy::outcomes, iofd_words::specs::Policy::access_outcomes))]
pub fn outcomes_of<A: Allocator>(
    world: &World<A>,
    device: DeviceNo,
    address: Iova,
    kind: AccessKind,
) -> Outcomes
    ensures { outcomes_in result ≡ outcomes world.now device address.0 kind }
{
    let Some(attachment) = attachments::attachment_of(&world.attachments, device) else {
        return denied(FaultReason::NoContext);
    };
    if is_beyond(world, device, address) {
        return denied(FaultReason::BeyondWidth);
    }
    translated(world, device, address, kind, attachment)
}

// Whether the address is at or above the width of the device's tables.
fn is_beyond<A: Allocator>(world: &World<A>, device: DeviceNo, address: Iova) -> bool
    ensures { result ≡ (elim (device_of world.now.settings device)
        [ Some d ↦ nat_le (2 ^ bits_of d.width) address.0 | None ↦ false ]) }
{
    match world.config.device(device) {
        Some(settings) => address.0 >= settings.width().end(),
        None => false,
    }
}

// What may come of it where the device is attached, below the width of its tables.
fn translated<A: Allocator>(
    world: &World<A>,
    device: DeviceNo,
    address: Iova,
    kind: AccessKind,
    attachment: Attachment,
) -> Outcomes
    ensures { outcomes_in result ≡ translated (view world.now) device address.0 kind attachment }
{
    let Some(ioas) = attachments::ioas_of_attachment(&world.objects, attachment) else {
        return denied(kind.denied());
    };
    let area = areas::area_at(&world.areas, attachment.file, ioas, address.0);
    at_area(&world.pins, device, address, kind, area)
}

// What may come of it at the area that holds the address.
fn at_area(
    pins: &[Pin],
    device: DeviceNo,
    address: Iova,
    kind: AccessKind,
    area: Option<&Area>,
) -> Outcomes
    ensures { outcomes_in result ≡ at_area (pinned_frame pins.now) device address.0 kind (option_copied area.entry) }
{
    let Some(area) = area else {
        return denied(kind.denied());
    };
    if !area.rights.allow(kind) {
        return denied(kind.denied());
    }
    let index = address.0.saturating_sub(area.span.first()) / 4096;
    by_phase(
        &area.phase,
        device,
        pins::pinned_frame(pins, area.memory, index),
        kind.denied(),
    )
}

// Where it has the right: a live area lets it pass, and so may a leaving one that the device still has to flush.
fn by_phase(
    phase: &Phase,
    device: DeviceNo,
    frame: Option<FrameNo>,
    reason: FaultReason,
) -> Outcomes
    ensures { outcomes_in result ≡ by_phase device phase.now (passing frame) (Denied reason ∷ []) }
{
    match phase {
        Phase::Live => Outcomes {
            frame,
            reason: None,
        },
        Phase::Leaving { owed, .. } => Outcomes {
            frame: if owed.contains(device) { frame } else { None },
            reason: Some(reason),
        },
    }
}
