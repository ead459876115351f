//! Attach: a device is attached to an address space, or to a page table.

ghost use Rattle.std.specs.Prelude.{◌≡◌, ◌∷◌, ◌++◌, [], ◌≤◌, None, Some, IfOk, false, true, length, take, drop};
ghost use Rattle.iofd_steps.specs.After.{changed, settle, with_hwpt};
ghost use Rattle.iofd_steps.specs.Answers.{Answers, IsHwptFor};
ghost use Rattle.iofd_words.specs.Attachments.{with_attachment};
ghost use Rattle.iofd_refusals.specs.Checks as words;
ghost use Rattle.iofd_refusals.specs.Checks.{attach_checks, bound_attach_checks, lacks_attached_page};
ghost use Rattle.iofd_refusals.specs.Checks.{passes_limit_attached, target_checks};
ghost use Rattle.iofd_words.specs.Files.{device_of};
ghost use Rattle.iofd_words.specs.FirstTrue.{first_true};
ghost use Rattle.iofd_words.specs.Objects.{automatic_hwpt, kind_of};
ghost use Rattle.iofd_words.specs.View.{view};
ghost use Rattle.iofd_words.specs.declared.event.Event.TheVariants as event;
ghost use Rattle.iofd_words.specs.declared.rows.ObjectKind.TheVariants as kind;
ghost use Rattle.journal_audit_page_tables.specs.Pinning.{with_device};
ghost use Rattle.journal_audit_world.specs.Kept.{IsKept};
ghost use Rattle.journal_audit_world.specs.Unwritten.{unwritten};

use crate::narrowing::narrows;
use crate::pinning::{add_page_table, refusal_by_pages};
use crate::rows::{lacks_attached_frames, lacks_room_for_hwpt, waits_for_leaving};
use crate::widths::width_of;
use iofd_words::{Attachment, Cause, DeviceNo, FileNo, NoMemory, ObjId, ObjectKind, Reply, Width};
use journal_audit_tables::coming;
use journal_audit_world::{World, areas, attachments, objects};
use std::alloc::Allocator;

// ---- why it is refused

/// Why it is refused, if it is. Its only error is want of memory.
#[tactic(auto, unfolding(iofd_refusals::specs::Checks::attach_checks))]
pub fn refusal<A: Allocator + Copy>(
    alloc: A,
    at: u64,
    world: &World<A>,
    device: DeviceNo,
    pt_id: ObjId,
) -> Result<Option<Cause>, NoMemory>
    requires kept { IsKept at world.now }
    ensures { IfOk result (λ cause. cause ≡ first_true (attach_checks (view world.now) device pt_id)) }
{
    match objects::binding_of(&world.objects, device) {
        Some(bound) => bound_refusal(alloc, at, world, device, pt_id, bound.file),
        None => Ok(Some(Cause::Id)),
    }
}

// Why that of a device that is bound to the file is.
fn bound_refusal<A: Allocator + Copy>(
    alloc: A,
    at: u64,
    world: &World<A>,
    device: DeviceNo,
    pt_id: ObjId,
    file: FileNo,
) -> Result<Option<Cause>, NoMemory>
    requires kept { IsKept at world.now }
    ensures { IfOk result (λ cause. cause
        ≡ first_true (bound_attach_checks (view world.now) device pt_id file)) }
{
    if attachments::attachment_of(&world.attachments, device).is_some() {
        return Ok(Some(Cause::Bound));
    }
    match objects::kind_of(&world.objects, file, pt_id) {
        Some(ObjectKind::Ioas) => refusal_to_space(alloc, at, world, device, file, pt_id),
        Some(ObjectKind::Hwpt { ioas, width, .. }) => {
            refusal_to_table(alloc, world, device, file, ioas, width)
        }
        _ => Ok(Some(Cause::Id)),
    }
}

// Why one to an address space is.
fn refusal_to_space<A: Allocator + Copy>(
    alloc: A,
    at: u64,
    world: &World<A>,
    device: DeviceNo,
    file: FileNo,
    ioas: ObjId,
) -> Result<Option<Cause>, NoMemory>
    requires kept { IsKept at world.now }
    ensures { IfOk result (λ cause. cause
        ≡ first_true (target_checks (view world.now) device ioas file (Some kind.Ioas))) }
{
    if waits_for_leaving(world, file, ioas) {
        return Ok(Some(Cause::Pending));
    }
    if narrows(alloc, world, file, ioas, device)? {
        return Ok(Some(Cause::Narrow));
    }
    if lacks_room_for_hwpt(world, file, ioas, device) {
        return Ok(Some(Cause::Full));
    }
    refusal_by_frames(alloc, at, world, device, file, ioas)
}

// Why it is by the pages that it pins, and by the frames that it takes.
fn refusal_by_frames<A: Allocator + Copy>(
    alloc: A,
    at: u64,
    world: &World<A>,
    device: DeviceNo,
    file: FileNo,
    ioas: ObjId,
) -> Result<Option<Cause>, NoMemory>
    requires kept { IsKept at world.now }
    ensures { let v = view world.now in IfOk result (λ cause. cause ≡ first_true (
        (Cause.Absent, lacks_attached_page v file ioas)
        ∷ (Cause.Account, passes_limit_attached v file ioas)
        ∷ (Cause.Frames, words.lacks_attached_frames v file ioas (device_of v.settings device))
        ∷ [])) }
{
    if let Some(cause) = refusal_by_pages(alloc, at, world, file, ioas)? {
        return Ok(Some(cause));
    }
    if lacks_attached_frames(alloc, world, file, ioas, device)? {
        return Ok(Some(Cause::Frames));
    }
    Ok(None)
}

// Whether the device's tables have another width.
fn has_other_width<A: Allocator>(world: &World<A>, device: DeviceNo, width: Width) -> bool
    ensures { let w = world.now in result ≡ words.has_other_width (device_of w.settings device) width }
{
    match world.config.device(device) {
        Some(settings) => settings.width().bits() != width.bits(),
        None => false,
    }
}

// Why one to a page table of this width over this address space is.
fn refusal_to_table<A: Allocator + Copy>(
    alloc: A,
    world: &World<A>,
    device: DeviceNo,
    file: FileNo,
    ioas: ObjId,
    width: Width,
) -> Result<Option<Cause>, NoMemory>
    ensures { let w = world.now in IfOk result (λ cause. cause ≡ first_true (
        (Cause.Width, words.has_other_width (device_of w.settings device) width)
        ∷ (Cause.Narrow, words.narrows (view w) file ioas (device_of w.settings device))
        ∷ [])) }
{
    if has_other_width(world, device, width) {
        return Ok(Some(Cause::Width));
    }
    if narrows(alloc, world, file, ioas, device)? {
        return Ok(Some(Cause::Narrow));
    }
    Ok(None)
}

// ---- what comes of it

// Before which of them the attachment stands.
fn place_of(attachments: &[Attachment], attachment: Attachment) -> usize
    ensures within { result ≤ length attachments.now }
    ensures placed { take result attachments.now ++ attachment ∷ drop result attachments.now
        ≡ with_attachment attachment attachments.now }
{
    for (index, other) in attachments.iter().enumerate() {
        if attachment.device.0 < other.device.0 {
            return index;
        }
    }
    attachments.len()
}

// One more attachment, by rising device.
fn add<A: Allocator>(
    attachments: &mut Vec<Attachment, A>,
    attachment: Attachment,
) -> Result<(), NoMemory>
    ensures { IfOk result (λ _. attachments.new.items ≡ with_attachment attachment attachments.old.items) }
{
    let place = place_of(attachments, attachment);
    attachments.insert(place, attachment)?;
    Ok(())
}

// The device translates by the page table from now on, and owes no area a flush.
fn join<A: Allocator>(
    world: &mut World<A>,
    device: DeviceNo,
    file: FileNo,
    hwpt: ObjId,
) -> Result<(), NoMemory>
    ensures { IfOk result (λ _. world.new ≡ with_device world.old device file hwpt) }
{
    let attachment = Attachment { device, file, hwpt };
    add(&mut world.attachments, attachment)?;
    areas::pay(&mut world.areas, device);
    Ok(())
}

// The automatic page table of this width over the address space comes, where there is none yet.
fn make_automatic<A: Allocator + Copy>(
    alloc: A,
    at: u64,
    world: &mut World<A>,
    file: FileNo,
    ioas: ObjId,
    id: ObjId,
    width: Width,
) -> Result<(), NoMemory>
    requires kept { IsKept at world.old }
    requires present { lacks_attached_page (view world.old) file ioas ≡ false }
    requires answered { IsHwptFor world.old file id (automatic_hwpt world.old.objects file ioas width) }
    ensures { let w = world.old in IfOk result (λ _. unwritten world.new ≡ unwritten (settle w (record w {
      objects = with_hwpt file ioas id width (automatic_hwpt w.objects file ioas width) w.objects;
    }))) }
{
    match coming::automatic_hwpt(&world.objects, file, ioas, width) {
        Some(_) => Ok(()),
        None => add_page_table(alloc, at, world, file, ioas, id, width, true),
    }
}

// The device is attached to an address space.
fn attach_to_space<A: Allocator + Copy>(
    alloc: A,
    at: u64,
    world: &mut World<A>,
    device: DeviceNo,
    file: FileNo,
    ioas: ObjId,
    id: ObjId,
    width: Width,
) -> Result<(), NoMemory>
    requires kept { IsKept at world.old }
    requires present { lacks_attached_page (view world.old) file ioas ≡ false }
    requires answered { IsHwptFor world.old file id (automatic_hwpt world.old.objects file ioas width) }
    ensures { let w = world.old in IfOk result (λ _. unwritten world.new
        ≡ unwritten (settle w (with_device (record w {
          objects = with_hwpt file ioas id width (automatic_hwpt w.objects file ioas width) w.objects;
        }) device file id))) }
{
    make_automatic(alloc, at, world, file, ioas, id, width)?;
    join(world, device, file, id)
}

/// What comes of it, where nothing refuses it, at this position, with a lawful answer. Its only error is want of
/// memory.
#[tactic(auto, unfolding(iofd_steps::specs::After::changed))]
pub fn change<A: Allocator + Copy>(
    alloc: A,
    at: u64,
    world: &mut World<A>,
    device: DeviceNo,
    pt_id: ObjId,
    reply: Reply,
) -> Result<(), NoMemory>
    requires kept { IsKept at world.old }
    requires granted { words.refusal {A = A} world.old (event.Attach device pt_id) ≡ None }
    requires answered { Answers {A = A} world.old (event.Attach device pt_id) reply }
    ensures { IfOk result (λ _. unwritten world.new
        ≡ unwritten (changed {A = A} at world.old (event.Attach device pt_id) reply)) }
{
    let Reply::Id(id) = reply else {
        return Ok(());
    };
    let Some(bound) = objects::binding_of(&world.objects, device) else {
        return Ok(());
    };
    let Some(width) = width_of(world, device) else {
        return Ok(());
    };
    match objects::kind_of(&world.objects, bound.file, pt_id) {
        Some(ObjectKind::Ioas) => {
            attach_to_space(alloc, at, world, device, bound.file, pt_id, id, width)
        }
        Some(ObjectKind::Hwpt { .. }) => join(world, device, bound.file, id),
        _ => Ok(()),
    }
}
