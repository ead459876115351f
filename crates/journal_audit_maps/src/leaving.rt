//! Areas that an UNMAP touches: how many bytes they have, how many tries they count, and that they leave.

ghost use Rattle.std.specs.Prelude.{◌≡◌, ◌==◌, true, false, not, filter, map, IfSome, IfNone, if◌then◌else◌};
ghost use Rattle.std.specs.List.{list_all};
ghost use Rattle.iofd_runs.specs.Fits.{devices_rise};
ghost use Rattle.iofd_words.specs.Areas.{is_everything, is_touched, leaving, pending_errno, touched_bytes};
ghost use Rattle.iofd_words.specs.Areas.{touched_tries, tried, tries_of, unmapped_span};
ghost use Rattle.iofd_words.specs.Attachments.{devices_of};
ghost use Rattle.iofd_words.specs.Files as files;
ghost use Rattle.iofd_words.specs.Span.{size_of};
ghost use Rattle.journal_audit_maps.specs.Leaving.{left_one};
ghost use Rattle.journal_audit_world.specs.Decides.{Decides};

use crate::asked::Asked;
use iofd_words::{
    Area, Attachment, Config, DeviceSet, Errno, FileNo, ObjId, Object, Phase, Span, UnmapRequest,
};
use journal_audit_world::areas::is_of;
use journal_audit_world::attachments::is_attached_to;
use std::alloc::Allocator;

// After so many tries asking again leads nowhere.
const COUNTED_TRIES: u8 = 100;

/// Whether it names every address, the last one too.
pub fn is_everything(request: UnmapRequest) -> bool
    ensures { result ≡ is_everything request }
{
    request.iova.0 == 0 && request.length == u64::MAX
}

/// The addresses that it names.
pub fn unmapped_span(request: UnmapRequest) -> Asked
    ensures { result ≡ unmapped_span request }
{
    if is_everything(request) {
        return Asked {
            first: 0,
            last: u128::from(u64::MAX),
        };
    }
    Asked::from(request.iova.0, request.length)
}

/// Whether the UNMAP touches the area.
pub fn is_touched(file: FileNo, request: UnmapRequest, area: &Area) -> bool
    ensures { result ≡ is_touched file request area.now }
{
    is_of(file, request.ioas, area) && unmapped_span(request).meets(area.span)
}

// ---- how many bytes go

fn size_of(span: Span) -> u128
    ensures { result ≡ size_of span }
{
    u128::from(span.last()) + 1 - u128::from(span.first())
}

// How many bytes of the area go.
fn touched_size(file: FileNo, request: UnmapRequest, area: &Area) -> u128
    ensures { result ≡ (if is_touched file request area.now then size_of area.now.span else 0) }
{
    if is_touched(file, request, area) {
        size_of(area.span)
    } else {
        0
    }
}

/// Whether the touched areas have just so many bytes.
pub fn have_bytes(areas: &[Area], file: FileNo, request: UnmapRequest, count: u64) -> bool
    ensures { Decides result (count ≡ touched_bytes areas.now file request) }
{
    let mut left = u128::from(count);
    for area in areas {
        let size = touched_size(file, request, area);
        if size > left {
            return false;
        }
        left -= size;
    }
    left == 0
}

/// The touched areas go.
pub fn remove_touched<A: Allocator>(areas: &mut Vec<Area, A>, file: FileNo, request: UnmapRequest)
    ensures { areas.new.items ≡ filter (λ area. not (is_touched file request area)) areas.old.items }
{
    areas.retain(|area| !is_touched(file, request, area));
}

// ---- tries

fn tries_of(phase: &Phase) -> u8
    ensures { result ≡ tries_of phase.now }
{
    match phase {
        Phase::Live => 0,
        Phase::Leaving { tries, .. } => *tries,
    }
}

// The tries of an area that is touched.
fn touched_tries_of(file: FileNo, request: UnmapRequest, area: &Area) -> u8
    ensures { result ≡ (if is_touched file request area.now then tries_of area.now.phase else 0) }
{
    if is_touched(file, request, area) {
        tries_of(&area.phase)
    } else {
        0
    }
}

/// The most tries that a touched area counts.
pub fn touched_tries(areas: &[Area], file: FileNo, request: UnmapRequest) -> u8
    ensures { result ≡ touched_tries areas.now file request }
{
    let mut most: u8 = 0;
    for area in areas {
        most = most.max(touched_tries_of(file, request, area));
    }
    most
}

/// What an UNMAP that waits answers, where so many tries are the most.
pub fn pending_errno(most: u8) -> Errno
    ensures { result ≡ pending_errno most }
{
    if most < COUNTED_TRIES {
        Errno::EAGAIN
    } else {
        Errno::EDEADLOCK
    }
}

// ---- areas leave

/// The devices that are attached to the address space. None where some attachment is of a device that there isn't.
pub fn attached_to<A: Allocator>(
    config: &Config<A>,
    objects: &[Object],
    attachments: &[Attachment],
    file: FileNo,
    ioas: ObjId,
) -> Option<DeviceSet>
    ensures none { IfNone result (list_all (λ a. files.is_device config.now a.device) attachments.now ≡ false) }
    ensures some { IfSome result (λ devices. devices_rise attachments.now ≡ true
        → devices ≡ devices_of objects.now attachments.now file ioas) }
{
    let mut devices = DeviceSet::new();
    for attachment in attachments {
        if is_attached_to(objects, file, ioas, *attachment) {
            if !config.has_device(attachment.device) {
                return None;
            }
            devices.insert(attachment.device);
        }
    }
    Some(devices)
}

// It is live no longer.
fn make_leaving(phase: &mut Phase, attached: &DeviceSet)
    ensures { phase.new ≡ leaving attached.now phase.old }
{
    if matches!(phase, Phase::Live) {
        *phase = Phase::Leaving {
            owed: attached.copied(),
            tries: 0,
        };
    }
}

// It counts this try.
fn count_try(phase: &mut Phase, most: u8)
    ensures { phase.new ≡ tried most phase.old }
{
    if most < COUNTED_TRIES {
        if let Phase::Leaving { tries, .. } = phase {
            *tries = most + 1;
        }
    }
}

fn leave_one(area: &mut Area, file: FileNo, request: UnmapRequest, attached: &DeviceSet, most: u8)
    ensures { area.new ≡ left_one most attached.now file request area.old }
{
    if is_touched(file, request, area) {
        make_leaving(&mut area.phase, attached);
        count_try(&mut area.phase, most);
    }
}

/// The touched areas are leaving, and count this try, where so many are the most.
pub fn leave<A: Allocator>(
    areas: &mut Vec<Area, A>,
    file: FileNo,
    request: UnmapRequest,
    attached: &DeviceSet,
    most: u8,
)
    ensures { areas.new.items ≡ map (left_one most attached.now file request) areas.old.items }
{
    for area in areas.iter_mut() {
        leave_one(area, file, request, attached, most);
    }
}
