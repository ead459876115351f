//! Attach: a device translates by a page table.

ghost use Rattle.std.specs.Prelude.{◌≡◌, ℕ, Bool, false, Option, Some, [], IfOk, OnErr};
ghost use Rattle.iofd_refusals.specs.Checks.{attach_checks, has_other_width, lacks_attached_frames};
ghost use Rattle.iofd_refusals.specs.Checks.{lacks_room_for_hwpt};
ghost use Rattle.iofd_refusals.specs.Checks.{narrows, target_checks};
ghost use Rattle.iofd_words.specs.FirstTrue.{first_true};
ghost use Rattle.iofd_words.specs.Files.{device_of};
ghost use Rattle.iofd_words.specs.Objects as objects;
ghost use Rattle.iofd_words.specs.declared.event.Event.TheVariants as event;
ghost use Rattle.iofd_words.specs.declared.numbers.FrameNo.{FrameNo};
ghost use Rattle.server_state.specs.Held.{objects_in};
ghost use Rattle.hwpt_device.specs.Making.{table_there, width_of};
ghost use Rattle.server_state.specs.Seen.{seen};
ghost use Rattle.server_state.specs.Step.{IsGranted, IsKnown, MovingSteps, ShowsSame};

use crate::making::width_of;
use crate::{attachments, making, narrow, waiting};
use iofd_words::{
    Attachment, Cause, Config, DeviceNo, FileNo, FrameNo, NoMemory, ObjId, ObjectKind, Reply, Width,
};
use object_table::Kind;
use server_state::{State, counts, lookups};
use std::alloc::Allocator;

/// Why it is refused, by the first row of the definitions that holds. None where nothing refuses it.
#[tactic(auto, unfolding(iofd_refusals::specs::Checks::attach_checks))]
pub fn refusal<A: Allocator + Copy>(
    state: &State<A>,
    device: DeviceNo,
    pt_id: ObjId,
) -> Option<Cause>
    requires { IsKnown state.now }
    ensures { result ≡ first_true (attach_checks (seen state.now) device pt_id) }
{
    let Some(bound) = state.binding_of(device) else {
        return Some(Cause::Id);
    };
    if state.attachment_of(device).is_some() {
        return Some(Cause::Bound);
    }
    refusal_by_target(state, device, bound.file, pt_id)
}

/// Why it is refused by what the file has under the id: an address space, or a page table.
fn refusal_by_target<A: Allocator + Copy>(
    state: &State<A>,
    device: DeviceNo,
    file: FileNo,
    pt_id: ObjId,
) -> Option<Cause>
    requires { IsKnown state.now }
    ensures { result ≡ first_true (target_checks (seen state.now) device pt_id file
        (objects.kind_of (objects_in state.now.objects) file pt_id)) }
{
    match lookups::kind_of(&state.objects, file, pt_id) {
        Some(ObjectKind::Ioas) => refusal_by_space(state, device, file, pt_id),
        Some(ObjectKind::Hwpt { ioas, width, .. }) => {
            refusal_by_table(state, device, file, ioas, width)
        }
        Some(ObjectKind::Device(_) | ObjectKind::Access { .. }) | None => Some(Cause::Id),
    }
}

/// Why an attachment to a page table of this width over the address space is refused.
fn refusal_by_table<A: Allocator>(
    state: &State<A>,
    device: DeviceNo,
    file: FileNo,
    ioas: ObjId,
    width: Width,
) -> Option<Cause>
    requires { IsKnown state.now }
    ensures { (pt_id : ObjId) (automatic : Bool) →
        result ≡ first_true (target_checks (seen state.now) device pt_id file
        (Some (ObjectKind.Hwpt ioas width automatic))) }
{
    if has_other_width(&state.config, device, width) {
        return Some(Cause::Width);
    }
    if narrow::narrows(state, device, file, ioas) {
        return Some(Cause::Narrow);
    }
    None
}

/// Whether the device's tables have another width.
fn has_other_width<A: Allocator>(config: &Config<A>, device: DeviceNo, width: Width) -> bool
    ensures { result ≡ has_other_width (device_of config.now device) width }
{
    match config.device(device) {
        Some(settings) => settings.width() != width,
        None => false,
    }
}

/// Why an attachment to the address space is refused.
fn refusal_by_space<A: Allocator + Copy>(
    state: &State<A>,
    device: DeviceNo,
    file: FileNo,
    ioas: ObjId,
) -> Option<Cause>
    requires { IsKnown state.now }
    ensures { result ≡ first_true (target_checks (seen state.now) device ioas file (Some ObjectKind.Ioas)) }
{
    if waiting::waits_for_leaving(state, file, ioas) {
        return Some(Cause::Pending);
    }
    if narrow::narrows(state, device, file, ioas) {
        return Some(Cause::Narrow);
    }
    if lacks_room(state, device, file, ioas) {
        return Some(Cause::Full);
    }
    if making::lacks_page(state, file, ioas) {
        return Some(Cause::Absent);
    }
    if making::passes_limit(state, file, ioas) {
        return Some(Cause::Account);
    }
    if lacks_frames(state, device, file, ioas) {
        return Some(Cause::Frames);
    }
    None
}

/// What it does where nothing refuses it: the device translates by the page table that is named, or by the automatic
/// one of its width over the address space that is, which is made where there is none yet. The tables of one that is
/// made are in the least free frames: they are named in `taken`, which is empty before. The answer is the page table's
/// id. The only error is want of memory, which changes nothing.
pub fn commit<A: Allocator + Copy>(
    state: &mut State<A>,
    device: DeviceNo,
    pt_id: ObjId,
    taken: &mut Vec<FrameNo, A>,
) -> Result<Reply, NoMemory>
    requires granted { IsGranted (event.Attach device pt_id) state.old }
    requires empty { taken.old.items ≡ [] }
    ensures ok { IfOk result (λ reply. (at : ℕ) (via : Option FrameNo) →
        MovingSteps at (event.Attach device pt_id) via state.old reply taken.new.items [] state.new) }
    ensures err { OnErr result (ShowsSame state.old state.new) }
    ensures none { OnErr result (taken.new.items ≡ []) }
{
    let Some(bound) = state.binding_of(device) else {
        // It was refused.
        unreachable!()
    };
    let file = bound.file;
    let Some(width) = width_of(&state.config, device) else {
        // Each bound device is one of the configuration.
        unreachable!()
    };
    let there = table_there(state, file, pt_id, width);
    state.attachments.reserve(1)?;
    // It is within its limits: so there are few devices.
    state.config.facts();
    if let Some(hwpt) = there {
        counts::add_user(&mut state.objects, file, Kind::Hwpt, hwpt);
        attachments::insert(&mut state.attachments, Attachment { device, file, hwpt });
        return Ok(Reply::Id(hwpt));
    }
    let made = making::make(state, file, pt_id, width, true, taken)?;
    counts::add_user(&mut state.objects, file, Kind::Hwpt, made);
    let attachment = Attachment {
        device,
        file,
        hwpt: made,
    };
    attachments::insert(&mut state.attachments, attachment);
    Ok(Reply::Id(made))
}

/// The page table that is there for an attachment: the one that is named, or the automatic one of the width over the
/// address space that is.
fn table_there<A: Allocator>(
    state: &State<A>,
    file: FileNo,
    pt_id: ObjId,
    width: Width,
) -> Option<ObjId>
    requires { IsKnown state.now }
    ensures { result ≡ table_there (objects_in state.now.objects) file pt_id width }
{
    match lookups::kind_of(&state.objects, file, pt_id) {
        Some(ObjectKind::Hwpt { .. }) => Some(pt_id),
        _ => state.automatic_hwpt(file, pt_id, width),
    }
}

/// Whether a page table would have to be made for which the file has no room.
fn lacks_room<A: Allocator>(state: &State<A>, device: DeviceNo, file: FileNo, ioas: ObjId) -> bool
    requires { IsKnown state.now }
    ensures { result ≡ lacks_room_for_hwpt (seen state.now) file ioas (device_of state.now.config device) }
{
    match width_of(&state.config, device) {
        Some(width) => state.automatic_hwpt(file, ioas, width).is_none()
            && making::is_full(&state.objects, file),
        None => false,
    }
}

/// Whether a page table would have to be made that has more tables than frames are free. No area reaches beyond the
/// device's width.
fn lacks_frames<A: Allocator>(state: &State<A>, device: DeviceNo, file: FileNo, ioas: ObjId) -> bool
    requires known { IsKnown state.now }
    requires within { narrows (seen state.now) file ioas (device_of state.now.config device) ≡ false }
    ensures { result ≡ lacks_attached_frames (seen state.now) file ioas (device_of state.now.config device) }
{
    match width_of(&state.config, device) {
        Some(width) => state.automatic_hwpt(file, ioas, width).is_none()
            && making::lacks_frames(state, file, ioas, width),
        None => false,
    }
}
