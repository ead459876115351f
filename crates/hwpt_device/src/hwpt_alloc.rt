//! HwptAlloc: a file gets a page table of a device's width over one of its address spaces.

ghost use Rattle.std.specs.Prelude.{◌≡◌, ℕ, Option, false, [], IfOk, OnErr};
ghost use Rattle.iofd_refusals.specs.Checks.{hwpt_alloc_checks, lacks_new_tables, narrows_by_width};
ghost use Rattle.iofd_words.specs.Files.{device_of};
ghost use Rattle.iofd_words.specs.FirstTrue.{first_true};
ghost use Rattle.iofd_words.specs.Objects as objects;
ghost use Rattle.iofd_words.specs.declared.event.Event.TheVariants as event;
ghost use Rattle.iofd_words.specs.declared.numbers.FrameNo.{FrameNo};
ghost use Rattle.server_state.specs.Held.{objects_in};
ghost use Rattle.server_state.specs.Seen.{seen};
ghost use Rattle.server_state.specs.Step.{IsGranted, IsKnown, MovingSteps, ShowsSame};

use crate::{making, narrow, waiting};
use iofd_words::{
    Cause, DeviceNo, FileNo, FrameNo, HwptRequest, NoMemory, ObjId, ObjectKind, Reply,
};
use object_table::ObjectTable;
use server_state::{Held, State, lookups};
use std::alloc::Allocator;

/// Why it is refused, by the first row of the definitions that holds. None where nothing refuses it.
#[tactic(auto, unfolding(iofd_refusals::specs::Checks::hwpt_alloc_checks))]
pub fn refusal<A: Allocator + Copy>(
    state: &State<A>,
    file: FileNo,
    request: HwptRequest,
) -> Option<Cause>
    requires { IsKnown state.now }
    ensures { result ≡ first_true (hwpt_alloc_checks (seen state.now) file request) }
{
    if !state.objects.is_open(file) {
        return Some(Cause::Id);
    }
    let Some(device) = device_under(&state.objects, file, request.device) else {
        return Some(Cause::Id);
    };
    if !has_ioas(&state.objects, file, request.ioas) {
        return Some(Cause::Id);
    }
    if waiting::waits_for_leaving(state, file, request.ioas) {
        return Some(Cause::Pending);
    }
    if narrow::narrows_by_width(state, device, file, request.ioas) {
        return Some(Cause::Narrow);
    }
    if making::is_full(&state.objects, file) {
        return Some(Cause::Full);
    }
    if making::lacks_page(state, file, request.ioas) {
        return Some(Cause::Absent);
    }
    if making::passes_limit(state, file, request.ioas) {
        return Some(Cause::Account);
    }
    if lacks_frames(state, device, file, request.ioas) {
        return Some(Cause::Frames);
    }
    None
}

/// Whether a page table of the device's width over the address space would have more tables than frames are free. No
/// area reaches beyond its width.
fn lacks_frames<A: Allocator>(state: &State<A>, device: DeviceNo, file: FileNo, ioas: ObjId) -> bool
    requires known { IsKnown state.now }
    requires within { narrows_by_width (seen state.now) file ioas (device_of state.now.config device) ≡ false }
    ensures { result ≡ lacks_new_tables (seen state.now) file ioas (device_of state.now.config device) }
{
    match making::width_of(&state.config, device) {
        Some(width) => making::lacks_frames(state, file, ioas, width),
        None => false,
    }
}

/// The device that the file has under the id.
fn device_under<A: Allocator>(
    table: &ObjectTable<Held<A>, A>,
    file: FileNo,
    id: ObjId,
) -> Option<DeviceNo>
    ensures { result ≡ objects.device_under (objects_in table.now) file id }
{
    match lookups::kind_of(table, file, id) {
        Some(ObjectKind::Device(device)) => Some(device),
        _ => None,
    }
}

/// Whether the file has an address space of this id.
fn has_ioas<A: Allocator>(table: &ObjectTable<Held<A>, A>, file: FileNo, id: ObjId) -> bool
    ensures { result ≡ objects.has_ioas (objects_in table.now) file id }
{
    matches!(lookups::kind_of(table, file, id), Some(ObjectKind::Ioas))
}

/// What it does where nothing refuses it: the file has one more page table, which stays until it is destroyed. The
/// first one over an address space pins the pages of all its areas. Its tables are in the least free frames: they are
/// named in `taken`, which is empty before. The answer is its id.
///
/// The only error is want of memory. It leaves the world as it was.
pub fn commit<A: Allocator + Copy>(
    state: &mut State<A>,
    file: FileNo,
    request: HwptRequest,
    taken: &mut Vec<FrameNo, A>,
) -> Result<Reply, NoMemory>
    requires granted { IsGranted (event.HwptAlloc file request) state.old }
    requires empty { taken.old.items ≡ [] }
    ensures ok { IfOk result (λ reply. (at : ℕ) (via : Option FrameNo) →
        MovingSteps at (event.HwptAlloc file request) via state.old reply taken.new.items [] state.new) }
    ensures err { OnErr result (ShowsSame state.old state.new) }
    ensures none { OnErr result (taken.new.items ≡ []) }
{
    let Some(device) = device_under(&state.objects, file, request.device) else {
        // It was refused.
        unreachable!()
    };
    let Some(width) = making::width_of(&state.config, device) else {
        // Each bound device is one of the configuration.
        unreachable!()
    };
    let id = making::make(state, file, request.ioas, width, false, taken)?;
    Ok(Reply::Id(id))
}
