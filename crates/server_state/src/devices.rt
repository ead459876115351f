//! Bindings and attachments stand by rising device, and are found by search.

ghost use Rattle.std.specs.Prelude.{◌≡◌, ◌<◌, ◌≤◌, IsTrue, length, nat_lt, vec_capacity, vec_len};
ghost use Rattle.std.specs.List.{insert, prefix_len};
ghost use Rattle.std.specs.Option.{option_copied};
ghost use Rattle.iofd_runs.specs.Fits.{devices_rise};
ghost use Rattle.iofd_words.specs.Attachments.{attachment_of};
ghost use Rattle.iofd_words.specs.Objects.{binding_of, is_bound_as};
ghost use Rattle.server_state.specs.Devices.{are_bindings, bound_number, with_binding};

use iofd_words::{Attachment, DeviceNo, Object, ObjectKind};
use std::alloc::Allocator;

/// The attachment of the device.
pub(crate) fn attachment_in(attachments: &[Attachment], device: DeviceNo) -> Option<&Attachment>
    requires { IsTrue (devices_rise attachments.now) }
    ensures { option_copied result ≡ attachment_of attachments.now device }
{
    let place = attachments_below(attachments, device);
    let Some(attachment) = attachments.get(place) else {
        return None;
    };
    if attachment.device == device {
        Some(attachment)
    } else {
        None
    }
}

/// How many are of a lower device.
fn attachments_below(attachments: &[Attachment], device: DeviceNo) -> usize
    requires { IsTrue (devices_rise attachments.now) }
    ensures { result ≡ prefix_len (λ a. nat_lt a.device.0 device.0) attachments.now }
{
    attachments.partition_point(|attachment| attachment.device.0 < device.0)
}

/// The object by which the device is bound.
pub(crate) fn binding_in(bindings: &[Object], device: DeviceNo) -> Option<&Object>
    requires { IsTrue (are_bindings bindings.now) }
    ensures { option_copied result ≡ binding_of bindings.now device }
{
    let place = bindings_below(bindings, device);
    let Some(object) = bindings.get(place) else {
        return None;
    };
    if is_bound_as(device, object.kind) {
        Some(object)
    } else {
        None
    }
}

/// How many bind a lower device.
fn bindings_below(bindings: &[Object], device: DeviceNo) -> usize
    requires { IsTrue (are_bindings bindings.now) }
    ensures { result ≡ prefix_len (λ object. nat_lt (bound_number object.kind) device.0) bindings.now }
{
    bindings.partition_point(|object| bound_number(object.kind) < device.0)
}

/// Adds the object by which a device is bound, where there is room. It takes no memory.
pub fn insert_binding<A: Allocator>(bindings: &mut Vec<Object, A>, object: Object)
    requires { vec_len bindings.old < vec_capacity bindings.old }
    ensures { bindings.new.items ≡ with_binding object bindings.old.items }
{
    let place = place_of(bindings, object);
    bindings.insert(place, object).unwrap();
}

/// Before which of them the object stands.
fn place_of(bindings: &[Object], object: Object) -> usize
    ensures within { result ≤ length bindings.now }
    ensures placed { insert bindings.now result object ≡ with_binding object bindings.now }
{
    for (index, other) in bindings.iter().enumerate() {
        if bound_number(object.kind) < bound_number(other.kind) {
            return index;
        }
    }
    bindings.len()
}

/// The number of the device that is bound by it; 0 where none is.
fn bound_number(kind: ObjectKind) -> u16
    ensures { result ≡ bound_number kind }
{
    match kind {
        ObjectKind::Device(device) => device.0,
        _ => 0,
    }
}

fn is_bound_as(device: DeviceNo, kind: ObjectKind) -> bool
    ensures { result ≡ is_bound_as device kind }
{
    match kind {
        ObjectKind::Device(bound) => bound == device,
        _ => false,
    }
}
