//! DeviceWrite: a device writes memory. The world after it is the same but for what was written, and for the mark of
//! the page, where the device's page table is tracked.

ghost use Rattle.std.specs.Prelude.{◌≡◌, Some, None, false, ◌&&◌, ℕ, List, IfOk};
ghost use Rattle.iofd_steps.specs.After.{changed};
ghost use Rattle.iofd_steps.specs.Answers.{Answers};
ghost use Rattle.iofd_refusals.specs.Checks.{device_write_checks, is_interrupt};
ghost use Rattle.iofd_words.specs.Files.{device_of};
ghost use Rattle.iofd_words.specs.FirstTrue.{first_true};
ghost use Rattle.iofd_words.specs.Policy.{fault_of};
ghost use Rattle.iofd_words.specs.View.{view};
ghost use Rattle.iofd_words.specs.declared.event.Event.TheVariants as event;
ghost use Rattle.iofd_words.specs.declared.fault.AccessKind.TheVariants as access;
ghost use Rattle.journal_audit_events.specs.Outcomes.{TellsFault, TellsPass};
ghost use Rattle.journal_audit_world.specs.Decides.{Decides};
ghost use Rattle.journal_audit_world.specs.Unwritten.{unwritten};

use crate::outcomes::outcomes_of;
use iofd_words::{
    AccessKind, Burst, Cause, Config, DeviceNo, Fault, FaultReason, FrameNo, Iova, NoMemory, Reply,
    SourceId,
};
use journal_audit_world::{World, attachments, objects, pages, tracked};
use std::alloc::Allocator;

/// Why it is refused, if it is.
#[tactic(auto, unfolding(iofd_refusals::specs::Checks::device_write_checks))]
pub fn refusal<A: Allocator>(
    world: &World<A>,
    device: DeviceNo,
    iova: Iova,
    bytes: Burst,
) -> Option<Cause>
    ensures { result ≡ first_true (device_write_checks (view world.now) device iova bytes) }
{
    if objects::binding_of(&world.objects, device).is_none() {
        return Some(Cause::Id);
    }
    if pages::crosses(iova.0, bytes.as_slice().len()) {
        return Some(Cause::Cross);
    }
    if is_interrupt(&world.config, device, iova) {
        return Some(Cause::InterruptRange);
    }
    None
}

// Whether it is an x86 device's address of interrupts.
fn is_interrupt<A: Allocator>(config: &Config<A>, device: DeviceNo, iova: Iova) -> bool
    ensures { result ≡ is_interrupt (device_of config.now device) iova.0 }
{
    match config.device(device) {
        Some(settings) => settings.is_interrupt(iova.0),
        None => false,
    }
}

/// Whether the answer is a lawful one.
pub fn may_answer<A: Allocator>(
    world: &World<A>,
    device: DeviceNo,
    iova: Iova,
    bytes: Burst,
    reply: Reply,
) -> bool
    ensures { Decides result (Answers {A = A} world.now (event.DeviceWrite device iova bytes) reply) }
{
    let may = outcomes_of(world, device, iova, AccessKind::Write);
    let passes = tells_pass(may.frame, reply);
    let faults = tells_fault(&world.config, device, iova, may.reason, reply);
    passes | faults
}

// Whether the answer is that it passes at this frame.
fn tells_pass(frame: Option<FrameNo>, reply: Reply) -> bool
    ensures { Decides result (TellsPass frame reply) }
{
    match (frame, reply) {
        (Some(frame), Reply::Passed(told)) => told == frame,
        _ => false,
    }
}

// Whether the answer is that it is denied for this reason.
fn tells_fault<A: Allocator>(
    config: &Config<A>,
    device: DeviceNo,
    iova: Iova,
    reason: Option<FaultReason>,
    reply: Reply,
) -> bool
    ensures { Decides result (TellsFault config.now device iova.0 reason reply) }
{
    match (reason, reply) {
        (Some(reason), Reply::Fault(told)) => told == fault_of(config, device, iova, reason),
        _ => false,
    }
}

// How the denial of a write is told.
fn fault_of<A: Allocator>(
    config: &Config<A>,
    device: DeviceNo,
    iova: Iova,
    reason: FaultReason,
) -> Fault
    ensures { result ≡ fault_of config.now device iova.0 access.Write reason }
{
    Fault {
        page: pages::page_of(iova.0),
        source: source_of(config, device),
        kind: AccessKind::Write,
        reason,
    }
}

fn source_of<A: Allocator>(config: &Config<A>, device: DeviceNo) -> SourceId
    ensures { result ≡ (elim (device_of config.now device) [ Some d ↦ d.source | None ↦ record { 0 = 0 } ]) }
{
    match config.device(device) {
        Some(settings) => settings.source(),
        None => SourceId(0),
    }
}

/// What comes of it. Its only error is want of memory.
#[tactic(auto, unfolding(iofd_steps::specs::After::changed))]
pub fn change<A: Allocator>(
    world: &mut World<A>,
    device: DeviceNo,
    iova: Iova,
    reply: Reply,
) -> Result<(), NoMemory>
    ensures { IfOk result (λ _. (at : ℕ) (bytes : List ℕ) →
        unwritten world.new ≡ unwritten (changed {A = A} at world.old (event.DeviceWrite device iova bytes) reply)) }
{
    let Reply::Passed(_) = reply else {
        return Ok(());
    };
    let Some(attachment) = attachments::attachment_of(&world.attachments, device) else {
        return Ok(());
    };
    let (file, hwpt) = (attachment.file, attachment.hwpt);
    tracked::mark(&mut world.tracked, file, hwpt, pages::page_of(iova.0))
}
