//! An access to what an access object has pinned: why it is refused, and the frame that it reaches.

ghost use Rattle.std.specs.Prelude.{◌≡◌, ◌∷◌, [], is_some, not, IfSome, Some};
ghost use Rattle.std.specs.Option.{option_copied};
ghost use Rattle.held_pins.specs.HeldPins.{is_covered};
ghost use Rattle.iofd_words.specs.Accesses.{accessed_frame};
ghost use Rattle.iofd_words.specs.Areas.{area_at};
ghost use Rattle.iofd_refusals.specs.Checks.{held_access_checks};
ghost use Rattle.iofd_words.specs.FirstTrue.{first_true};
ghost use Rattle.iofd_words.specs.Objects.{access_ioas_of};
ghost use Rattle.iofd_words.specs.Policy.{page_in};
ghost use Rattle.iofd_words.specs.declared.fault.AccessKind.TheVariants as kinds;
ghost use Rattle.server_state.specs.Held.{areas_at, objects_in};
ghost use Rattle.server_state.specs.Seen.{seen};
ghost use Rattle.server_state.specs.Step.{IsKnown};
ghost use Rattle.user_memory.specs.Memory.{pinned_frame};

use crate::asked::attached_to;
use iofd_words::{AccessKind, Area, Cause, FileNo, FrameNo, Iova, ObjId, ObjectKind, PAGE_SIZE};
use object_table::ObjectTable;
use server_state::accesses::crosses;
use server_state::{Held, State, lookups};
use std::alloc::Allocator;
use user_memory::UserMemory;

/// Why the access object's access to so many bytes from the address on is refused, a read or a write.
///
/// Refused by 11 (ENOENT, `Cause::Id`) where the file isn't open or has no access object of this id, then by 28
/// (ENOENT, `Cause::Unattached`) where that isn't attached, then by 26 (EINVAL, `Cause::Cross`) where the bytes are
/// none or more than 64, or leave the page, then by 18 (EINVAL, `Cause::NotHeld`) where no pin of it covers the page,
/// and then by 16 (EPERM, `Cause::Rights`) where it is a write and none that does is for writes.
pub(crate) fn refusal<A: Allocator>(
    state: &State<A>,
    file: FileNo,
    id: ObjId,
    iova: Iova,
    len: usize,
    kind: AccessKind,
) -> Option<Cause>
    requires { IsKnown state.now }
    ensures { result ≡ first_true (held_access_checks (seen state.now) file id iova len kind) }
{
    if !state.objects.is_open(file) {
        return Some(Cause::Id);
    }
    let Some(ObjectKind::Access { ioas: attached }) = lookups::kind_of(&state.objects, file, id)
    else {
        return Some(Cause::Id);
    };
    let Some(ioas) = attached else {
        return Some(Cause::Unattached);
    };
    if crosses(iova.0, len) {
        return Some(Cause::Cross);
    }
    refusal_by_pins(state, file, id, ioas, iova.0, kind)
}

/// The same of the pins of the access object, which is attached to the address space: where one covers the page and is
/// for such an access, which is asked first, nothing refuses it.
fn refusal_by_pins<A: Allocator>(
    state: &State<A>,
    file: FileNo,
    id: ObjId,
    ioas: ObjId,
    address: u64,
    kind: AccessKind,
) -> Option<Cause>
    requires known { IsKnown state.now }
    requires attached { access_ioas_of (objects_in state.now.objects) file id ≡ Some ioas }
    ensures { result ≡ first_true (
        (Cause.NotHeld, not (is_covered state.now.access_pins file id address kinds.Read))
        ∷ (Cause.Rights, not (is_covered state.now.access_pins file id address kind))
        ∷ []) }
{
    if is_covered(state, file, id, ioas, address, kind) {
        return None;
    }
    if is_covered(state, file, id, ioas, address, AccessKind::Read) {
        return Some(Cause::Rights);
    }
    Some(Cause::NotHeld)
}

/// Whether a pin of the access object, which is attached to the address space, covers the page at the address and is
/// for such an access. It holds no pin in another address space.
fn is_covered<A: Allocator>(
    state: &State<A>,
    file: FileNo,
    id: ObjId,
    ioas: ObjId,
    address: u64,
    kind: AccessKind,
) -> bool
    requires known { IsKnown state.now }
    requires attached { access_ioas_of (objects_in state.now.objects) file id ≡ Some ioas }
    ensures { result ≡ is_covered state.now.access_pins file id address kind }
{
    state.access_pins.covers(file, id, ioas, address, kind)
}

/// The frame at which the page at the address is pinned, if a pin of the access object covers it; None elsewhere, and
/// where the file has no access object of this id. It costs a few look-ups. (`iommufd.h` of the kernel,
/// `iommufd_access_pin_pages`, which hands out pages.)
pub fn frame_of<A: Allocator>(
    state: &State<A>,
    file: FileNo,
    id: ObjId,
    iova: Iova,
) -> Option<FrameNo>
    requires { IsKnown state.now }
    ensures covered { is_some result ≡ (seen state.now).is_covered file id iova.0 kinds.Read }
    ensures value { IfSome result (λ frame. accessed_frame (seen state.now) file id iova.0 ≡ Some frame) }
{
    let Some(ioas) = attached_to(&state.objects, file, id) else {
        // It holds no pin.
        return None;
    };
    if !is_covered(state, file, id, ioas, iova.0, AccessKind::Read) {
        return None;
    }
    frame_at(state, file, id, iova.0)
}

/// The frame at which the page at the address is pinned, in the address space to which the access object is attached.
/// It costs a few look-ups.
pub(crate) fn frame_at<A: Allocator>(
    state: &State<A>,
    file: FileNo,
    id: ObjId,
    address: u64,
) -> Option<FrameNo>
    ensures { result ≡ accessed_frame (seen state.now) file id address }
{
    let Some(ObjectKind::Access { ioas: Some(ioas) }) = lookups::kind_of(&state.objects, file, id)
    else {
        return None;
    };
    let area = area_at(&state.objects, file, ioas, address)?;
    pinned_at(&state.memory, area, address)
}

/// The frame at which the page that the area has at the address is pinned.
fn pinned_at<A: Allocator>(memory: &UserMemory<A>, area: &Area, address: u64) -> Option<FrameNo>
    ensures { result ≡ pinned_frame memory.now (page_in area.now address) }
{
    let page = address.saturating_sub(area.span.first()) / PAGE_SIZE;
    memory.frame(area.memory, page)
}

/// The area of the address space that holds the address.
#[tactic(auto, using(server_state::proofs::Objects::no_space))]
fn area_at<A: Allocator>(
    table: &ObjectTable<Held<A>, A>,
    file: FileNo,
    ioas: ObjId,
    address: u64,
) -> Option<&Area>
    ensures { option_copied result ≡ area_at address (areas_at table.now.rows file ioas) }
{
    match lookups::areas_of(table, file, ioas) {
        Some(areas) => areas.at(address),
        None => None,
    }
}
