//! Which tables go with an event.

ghost use Rattle.std.specs.Prelude.{◌≡◌, ◌==◌, ◌&&◌, not};
ghost use Rattle.iofd_words.specs.Attachments.{attachment_of, has_device_on, without_attachment};
ghost use Rattle.journal_audit_events.specs.Gone.{gone_with, gone_with_attachment, is_automatic_kind};

use iofd_words::{Attachment, DeviceNo, Event, FileNo, ObjId, ObjectKind};
use journal_audit_world::{World, attachments, objects};
use std::alloc::Allocator;

/// Which rows of tables go.
#[derive(Clone, Copy)]
pub enum Gone {
    Nothing,
    /// Those of this page table.
    PageTable(FileNo, ObjId),
    /// Those of the page tables of this file.
    File(FileNo),
}

/// Which go with the event, where nothing refuses it.
pub fn gone_with<A: Allocator>(world: &World<A>, event: &Event<A>) -> Gone
    ensures { result ≡ gone_with world.now event.now }
{
    match event {
        Event::Detach(device) => gone_with_device(world, *device),
        Event::Destroy(file, id) => Gone::PageTable(*file, *id),
        Event::Close(file) => Gone::File(*file),
        _ => Gone::Nothing,
    }
}

fn gone_with_device<A: Allocator>(world: &World<A>, device: DeviceNo) -> Gone
    ensures { result ≡ gone_with_attachment world.now device (attachment_of world.now.attachments device) }
{
    let Some(attachment) = attachments::attachment_of(&world.attachments, device) else {
        return Gone::Nothing;
    };
    let (file, hwpt) = (attachment.file, attachment.hwpt);
    if is_automatic(objects::kind_of(&world.objects, file, hwpt))
        && !has_other_on(&world.attachments, device, file, hwpt)
    {
        return Gone::PageTable(file, hwpt);
    }
    Gone::Nothing
}

fn is_automatic(kind: Option<ObjectKind>) -> bool
    ensures { result ≡ is_automatic_kind kind }
{
    match kind {
        Some(kind) => objects::is_automatic(kind),
        None => false,
    }
}

// Whether by it another device translates by the page table.
fn is_other_on(device: DeviceNo, file: FileNo, hwpt: ObjId, attachment: Attachment) -> bool
    ensures { result ≡ (not (attachment.device.0 == device.0)
        && (attachment.file.0 == file.0 && attachment.hwpt.0 == hwpt.0)) }
{
    attachment.device.0 != device.0 && attachment.file.0 == file.0 && attachment.hwpt.0 == hwpt.0
}

// Whether another device translates by the page table.
fn has_other_on(attachments: &[Attachment], device: DeviceNo, file: FileNo, hwpt: ObjId) -> bool
    ensures { result ≡ has_device_on (without_attachment device attachments.now) file hwpt }
{
    for attachment in attachments {
        if is_other_on(device, file, hwpt, *attachment) {
            return true;
        }
    }
    false
}
