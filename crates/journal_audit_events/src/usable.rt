//! Addresses of an address space that can't be used.

ghost use Rattle.std.specs.Prelude.{◌≡◌, ◌||◌};
ghost use Rattle.std.specs.List.{list_any};
ghost use Rattle.iofd_rows.specs.Reached.{ends_in, keeps_of};
ghost use Rattle.iofd_words.specs.Files.{device_of};
ghost use Rattle.iofd_words.specs.Ranges.{meets_some};
ghost use Rattle.iofd_words.specs.Span.{meets};
ghost use Rattle.iofd_words.specs.Usable.{beyond_table, reserved_by, reserved_of, unusable};

use iofd_words::{
    Attachment, Config, DeviceConfig, DeviceNo, FileNo, IovaRange, ObjId, Object, ObjectKind, Span,
};
use journal_audit_world::allowed::meets;
use journal_audit_world::attachments::is_attached_to;
use journal_audit_world::objects::is_hwpt_of;
use std::alloc::Allocator;

// The addresses at which an x86 device's writes are interrupts.
const INTERRUPTS: IovaRange = IovaRange {
    start: 0xfee0_0000,
    last: 0xfeef_ffff,
};

/// Whether some range has an address that the address space can't use. Objects and attachments are gone through once.
pub fn meet_unusable<A: Allocator>(
    config: &Config<A>,
    objects: &[Object],
    attachments: &[Attachment],
    file: FileNo,
    ioas: ObjId,
    ranges: &[IovaRange],
) -> bool
    ensures { result
        ≡ list_any (meets_some (unusable config.now objects.now attachments.now file ioas)) ranges.now }
{
    meet_rows(config, objects, attachments, file, ioas, ranges)
}

// Whether some range ends beyond a page table over the address space, or has an address that a device attached to it
// keeps for itself.
fn meet_rows<A: Allocator>(
    config: &Config<A>,
    objects: &[Object],
    attachments: &[Attachment],
    file: FileNo,
    ioas: ObjId,
    ranges: &[IovaRange],
) -> bool
    ensures { result
        ≡ (list_any (λ object. list_any (λ range. ends_in file ioas range object) ranges.now) objects.now
        || list_any (λ a. list_any (λ range. keeps_of config.now objects.now file ioas range a) ranges.now)
        attachments.now) }
{
    end_beyond(objects, file, ioas, ranges)
        || are_kept(config, objects, attachments, file, ioas, ranges)
}

// Whether some range ends beyond a page table of the address space.
fn end_beyond(objects: &[Object], file: FileNo, ioas: ObjId, ranges: &[IovaRange]) -> bool
    ensures { result ≡ list_any (λ object. list_any (λ range. ends_in file ioas range object) ranges.now) objects.now }
{
    for object in objects {
        if ends_in(file, ioas, *object, ranges) {
            return true;
        }
    }
    false
}

// Whether some range ends beyond this one, if it is a page table of the address space.
fn ends_in(file: FileNo, ioas: ObjId, object: Object, ranges: &[IovaRange]) -> bool
    ensures { result ≡ list_any (λ range. ends_in file ioas range object) ranges.now }
{
    if !is_hwpt_of(file, ioas, object) {
        return false;
    }
    for range in ranges {
        if is_beyond(object.kind, *range) {
            return true;
        }
    }
    false
}

// Whether the range ends beyond the addresses that a page table translates.
fn is_beyond(kind: ObjectKind, range: IovaRange) -> bool
    ensures { result ≡ meets_some (beyond_table kind) range }
{
    match kind {
        ObjectKind::Hwpt { width, .. } => {
            let beyond = IovaRange {
                start: width.end(),
                last: u64::MAX,
            };
            meets(beyond, range)
        }
        _ => false,
    }
}

// Whether a device that is attached to the address space keeps an address of some range.
fn are_kept<A: Allocator>(
    config: &Config<A>,
    objects: &[Object],
    attachments: &[Attachment],
    file: FileNo,
    ioas: ObjId,
    ranges: &[IovaRange],
) -> bool
    ensures { result
        ≡ list_any (λ a. list_any (λ range. keeps_of config.now objects.now file ioas range a) ranges.now)
        attachments.now }
{
    for attachment in attachments {
        if keeps_of(config, objects, file, ioas, *attachment, ranges) {
            return true;
        }
    }
    false
}

// Whether this one's does.
fn keeps_of<A: Allocator>(
    config: &Config<A>,
    objects: &[Object],
    file: FileNo,
    ioas: ObjId,
    attachment: Attachment,
    ranges: &[IovaRange],
) -> bool
    ensures { result ≡ list_any (λ range. keeps_of config.now objects.now file ioas range attachment) ranges.now }
{
    if !is_attached_to(objects, file, ioas, attachment) {
        return false;
    }
    for range in ranges {
        if is_kept(config, attachment.device, *range) {
            return true;
        }
    }
    false
}

/// Whether the device keeps an address of the range for itself.
pub fn is_kept<A: Allocator>(config: &Config<A>, device: DeviceNo, range: IovaRange) -> bool
    ensures { result ≡ meets_some (reserved_of (device_of config.now device)) range }
{
    match config.device(device) {
        Some(device) => is_kept_by(device, range),
        None => false,
    }
}

fn is_kept_by<A: Allocator>(device: &DeviceConfig<A>, range: IovaRange) -> bool
    ensures { result ≡ meets_some (reserved_by device.now) range }
{
    if device.is_x86() {
        return meets(INTERRUPTS, range) || is_reserved(device.reserved(), range);
    }
    is_reserved(device.reserved(), range)
}

// Whether the two have an address in common.
fn meets_span(span: Span, range: IovaRange) -> bool
    ensures { result ≡ meets span range }
{
    span.first() <= range.last && range.start <= span.last()
}

fn is_reserved(spans: &[Span], range: IovaRange) -> bool
    ensures { result ≡ meets_some spans.now range }
{
    for span in spans {
        if meets_span(*span, range) {
            return true;
        }
    }
    false
}
