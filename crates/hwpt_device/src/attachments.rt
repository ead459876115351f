//! The list of attachments, by rising device.

ghost use Rattle.std.specs.Prelude.{◌≡◌, ◌<◌, ◌≤◌, length, vec_len, vec_capacity};
ghost use Rattle.std.specs.List.{insert};
ghost use Rattle.iofd_words.specs.Attachments.{with_attachment, without_attachment};

use iofd_words::{Attachment, DeviceNo};
use std::alloc::Allocator;

/// Adds an attachment, by rising device, where there is room. It takes no memory.
pub(crate) fn insert<A: Allocator>(list: &mut Vec<Attachment, A>, attachment: Attachment)
    requires { vec_len list.old < vec_capacity list.old }
    ensures { list.new.items ≡ with_attachment attachment list.old.items }
{
    let place = place_of(list, attachment);
    list.insert(place, attachment).unwrap();
}

/// Takes the device's attachment away. All others stay.
pub(crate) fn remove<A: Allocator>(list: &mut Vec<Attachment, A>, device: DeviceNo)
    ensures { list.new.items ≡ without_attachment device list.old.items }
{
    list.retain(|a| a.device != device);
}

/// Before which of them the attachment stands.
fn place_of(list: &[Attachment], attachment: Attachment) -> usize
    ensures within { result ≤ length list.now }
    ensures placed { insert list.now result attachment ≡ with_attachment attachment list.now }
{
    for (index, other) in list.iter().enumerate() {
        if attachment.device.0 < other.device.0 {
            return index;
        }
    }
    list.len()
}
