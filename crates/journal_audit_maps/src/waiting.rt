//! Whether an UNMAP waits.

ghost use Rattle.std.specs.Prelude.{◌≡◌, ◌&&◌, ◌||◌, None};
ghost use Rattle.std.specs.List.{list_any};
ghost use Rattle.iofd_steps.specs.Answers.{waits};
ghost use Rattle.iofd_words.specs.Areas.{is_touched, unmapped_span};
ghost use Rattle.iofd_words.specs.Attachments.{is_attached_to};
ghost use Rattle.iofd_refusals.specs.Checks.{refusal};
ghost use Rattle.iofd_words.specs.declared.event.Event.TheVariants as event;
ghost use Rattle.journal_audit_maps.specs.Waiting.{are_owed, is_pin_at};
ghost use Rattle.journal_audit_world.specs.Kept.{IsKept};

use crate::asked::Asked;
use crate::leaving::{is_touched, unmapped_span};
use iofd_words::{AccessPin, Area, Attachment, FileNo, ObjId, Object, Phase, UnmapRequest};
use journal_audit_world::World;
use journal_audit_world::attachments::is_attached_to;
use journal_audit_world::objects::access_ioas_of;
use std::alloc::Allocator;

// Whether some device is attached to the address space.
fn has_attached(objects: &[Object], attachments: &[Attachment], file: FileNo, ioas: ObjId) -> bool
    ensures { result ≡ list_any (is_attached_to objects.now file ioas) attachments.now }
{
    for attachment in attachments {
        if is_attached_to(objects, file, ioas, *attachment) {
            return true;
        }
    }
    false
}

// Whether some device still has to flush, where it is told whether one is attached.
fn is_owed(attached: bool, phase: &Phase) -> bool
    ensures { result ≡ are_owed attached phase.now }
{
    match phase {
        Phase::Live => attached,
        Phase::Leaving { owed, .. } => !owed.is_empty(),
    }
}

// Whether some device still has to flush the area, and it is touched.
fn is_owed_by(attached: bool, file: FileNo, request: UnmapRequest, area: &Area) -> bool
    ensures { result ≡ (is_touched file request area.now && are_owed attached area.now.phase) }
{
    is_touched(file, request, area) && is_owed(attached, &area.phase)
}

// Whether some device still has to flush an area that is touched.
fn is_some_owed(areas: &[Area], attached: bool, file: FileNo, request: UnmapRequest) -> bool
    ensures { result
        ≡ list_any (λ area. is_touched file request area && are_owed attached area.phase) areas.now }
{
    for area in areas {
        if is_owed_by(attached, file, request, area) {
            return true;
        }
    }
    false
}

// Whether it is a pin of an access object that is attached to the address space, and meets these addresses.
fn is_pin_at(objects: &[Object], file: FileNo, ioas: ObjId, asked: Asked, pin: &AccessPin) -> bool
    ensures { result ≡ is_pin_at objects.now file ioas asked pin.now }
{
    if pin.file.0 != file.0 || !asked.meets(pin.span) {
        return false;
    }
    match access_ioas_of(objects, pin.file, pin.access) {
        Some(attached) => attached.0 == ioas.0,
        None => false,
    }
}

// Whether there is such a pin.
fn has_pin_at(
    objects: &[Object],
    pins: &[AccessPin],
    file: FileNo,
    ioas: ObjId,
    asked: Asked,
) -> bool
    ensures { result ≡ list_any (is_pin_at objects.now file ioas asked) pins.now }
{
    for pin in pins {
        if is_pin_at(objects, file, ioas, asked, pin) {
            return true;
        }
    }
    false
}

// Whether one of the touched areas is owed a flush, or such a pin is in the way.
fn wait_by_rows(
    objects: &[Object],
    attachments: &[Attachment],
    areas: &[Area],
    pins: &[AccessPin],
    file: FileNo,
    request: UnmapRequest,
) -> bool
    ensures { result ≡ (list_any (λ area. is_touched file request area
        && are_owed (list_any (is_attached_to objects.now file request.ioas) attachments.now) area.phase) areas.now
        || list_any (is_pin_at objects.now file request.ioas (unmapped_span request)) pins.now) }
{
    let attached = has_attached(objects, attachments, file, request.ioas);
    is_some_owed(areas, attached, file, request)
        || has_pin_at(objects, pins, file, request.ioas, unmapped_span(request))
}

/// Whether an UNMAP that nothing refuses waits for a device or for an access pin.
pub fn waits<A: Allocator>(at: u64, world: &World<A>, file: FileNo, request: UnmapRequest) -> bool
    requires kept { IsKept at world.now }
    requires granted { refusal {A = A} world.now (event.Unmap file request) ≡ None }
    ensures { result ≡ waits world.now file request }
{
    wait_by_rows(
        &world.objects,
        &world.attachments,
        &world.areas,
        &world.access_pins,
        file,
        request,
    )
}
