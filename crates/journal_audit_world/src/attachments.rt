//! Devices that translate by a hardware page table.

ghost use Rattle.std.specs.Prelude.{◌≡◌, ◌==◌, ◌&&◌, not, filter};
ghost use Rattle.iofd_words.specs.Attachments.{attachment_of, has_device_on, ioas_of, ioas_of_attachment};
ghost use Rattle.iofd_words.specs.Attachments.{is_attached_to};
ghost use Rattle.iofd_words.specs.Attachments.{without_attachment};

use crate::objects::{is_hwpt_over, kind_of};
use iofd_words::{Attachment, DeviceNo, FileNo, ObjId, Object, ObjectKind};
use std::alloc::Allocator;

/// The attachment of a device.
pub fn attachment_of(attachments: &[Attachment], device: DeviceNo) -> Option<Attachment>
    ensures { result ≡ attachment_of attachments.now device }
{
    for attachment in attachments {
        if attachment.device.0 == device.0 {
            return Some(*attachment);
        }
    }
    None
}

// Whether it is by this page table.
fn is_on(file: FileNo, hwpt: ObjId, attachment: Attachment) -> bool
    ensures { result ≡ (attachment.file.0 == file.0 && attachment.hwpt.0 == hwpt.0) }
{
    attachment.file.0 == file.0 && attachment.hwpt.0 == hwpt.0
}

/// Whether some device translates by this page table.
pub fn has_device_on(attachments: &[Attachment], file: FileNo, hwpt: ObjId) -> bool
    ensures { result ≡ has_device_on attachments.now file hwpt }
{
    for attachment in attachments {
        if is_on(file, hwpt, *attachment) {
            return true;
        }
    }
    false
}

/// The address space of a page table.
pub fn ioas_of(kind: ObjectKind) -> Option<ObjId>
    ensures { result ≡ ioas_of kind }
{
    match kind {
        ObjectKind::Hwpt { ioas, .. } => Some(ioas),
        _ => None,
    }
}

/// The address space that the device of an attachment reaches.
pub fn ioas_of_attachment(objects: &[Object], attachment: Attachment) -> Option<ObjId>
    ensures { result ≡ ioas_of_attachment objects.now attachment }
{
    match kind_of(objects, attachment.file, attachment.hwpt) {
        Some(kind) => ioas_of(kind),
        None => None,
    }
}

/// Whether it is one to this address space.
pub fn is_attached_to(objects: &[Object], file: FileNo, ioas: ObjId, attachment: Attachment) -> bool
    ensures { result ≡ is_attached_to objects.now file ioas attachment }
{
    if attachment.file.0 != file.0 {
        return false;
    }
    match kind_of(objects, attachment.file, attachment.hwpt) {
        Some(kind) => is_hwpt_over(ioas, kind),
        None => false,
    }
}

/// The device's attachment goes.
pub fn remove<A: Allocator>(attachments: &mut Vec<Attachment, A>, device: DeviceNo)
    ensures { attachments.new.items ≡ without_attachment device attachments.old.items }
{
    attachments.retain(move |attachment| !(attachment.device.0 == device.0));
}

/// The attachments of the file go.
pub fn remove_of_file<A: Allocator>(attachments: &mut Vec<Attachment, A>, file: FileNo)
    ensures { attachments.new.items ≡ filter (λ a. not (a.file.0 == file.0)) attachments.old.items }
{
    attachments.retain(move |attachment| !(attachment.file.0 == file.0));
}
