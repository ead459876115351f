//! The fields of each step behind its first number, read from the front of bytes, with the bytes after them.
#![tactic(auto, unfolding(crate::specs::Reading::fields_behind, crate::specs::Reading::row_behind))]

ghost use Rattle.std.specs.Prelude.{◌≡◌, option_map};
ghost use Rattle.journal_audit_bytes.specs.Format.{event_rows, pin};
ghost use Rattle.journal_audit_bytes.specs.Reading.{fields_behind, pin_numbers, plainly, row_behind, tagged_event};

use crate::lists::burst_at;
use crate::numbers::{u8_at, u16_at, u32_at, u64_at};
use iofd_words::{DeviceNo, Event, FileNo, Iova, ObjId, PinRequest, UserNo};
use std::alloc::Allocator;

pub fn user_map_at<A: Allocator>(user: UserNo, bytes: &[u8]) -> Option<(Event<A>, &[u8])>
    ensures { fields_behind event_rows 0x02 user.0 bytes.now ≡ option_map (λ x. (tagged_event x.0, x.1.now)) result }
{
    let (va, rest) = u64_at(bytes)?;
    Some((Event::UserMap(user, va), rest))
}

pub fn user_unmap_at<A: Allocator>(user: UserNo, bytes: &[u8]) -> Option<(Event<A>, &[u8])>
    ensures { fields_behind event_rows 0x03 user.0 bytes.now ≡ option_map (λ x. (tagged_event x.0, x.1.now)) result }
{
    let (va, rest) = u64_at(bytes)?;
    Some((Event::UserUnmap(user, va), rest))
}

pub fn bind_at<A: Allocator>(file: FileNo, bytes: &[u8]) -> Option<(Event<A>, &[u8])>
    ensures { fields_behind event_rows 0x05 file.0 bytes.now ≡ option_map (λ x. (tagged_event x.0, x.1.now)) result }
{
    let (device, rest) = u16_at(bytes)?;
    Some((Event::Bind(file, DeviceNo(device)), rest))
}

pub fn unbind_at<A: Allocator>(file: FileNo, bytes: &[u8]) -> Option<(Event<A>, &[u8])>
    ensures { fields_behind event_rows 0x06 file.0 bytes.now ≡ option_map (λ x. (tagged_event x.0, x.1.now)) result }
{
    let (id, rest) = u32_at(bytes)?;
    Some((Event::Unbind(file, ObjId(id)), rest))
}

pub fn attach_at<A: Allocator>(device: DeviceNo, bytes: &[u8]) -> Option<(Event<A>, &[u8])>
    ensures { fields_behind event_rows 0x07 device.0 bytes.now ≡ option_map (λ x. (tagged_event x.0, x.1.now)) result }
{
    let (pt_id, rest) = u32_at(bytes)?;
    Some((Event::Attach(device, ObjId(pt_id)), rest))
}

pub fn user_write_at<A: Allocator>(user: UserNo, bytes: &[u8]) -> Option<(Event<A>, &[u8])>
    ensures { fields_behind event_rows 0x04 user.0 bytes.now ≡ option_map (λ x. (tagged_event x.0, x.1.now)) result }
{
    let (va, rest) = u64_at(bytes)?;
    match burst_at(rest) {
        Some((burst, rest)) => Some((Event::UserWrite(user, va, burst), rest)),
        None => None,
    }
}

pub fn device_write_at<A: Allocator>(device: DeviceNo, bytes: &[u8]) -> Option<(Event<A>, &[u8])>
    ensures { fields_behind event_rows 0x0a device.0 bytes.now ≡ option_map (λ x. (tagged_event x.0, x.1.now)) result }
{
    let (iova, rest) = u64_at(bytes)?;
    match burst_at(rest) {
        Some((burst, rest)) => Some((Event::DeviceWrite(device, Iova(iova), burst), rest)),
        None => None,
    }
}

pub fn access_attach_at<A: Allocator>(file: FileNo, bytes: &[u8]) -> Option<(Event<A>, &[u8])>
    ensures { fields_behind event_rows 0x0c file.0 bytes.now ≡ option_map (λ x. (tagged_event x.0, x.1.now)) result }
{
    let (id, rest) = u32_at(bytes)?;
    let (ioas, rest) = u32_at(rest)?;
    Some((Event::AccessAttach(file, ObjId(id), ObjId(ioas)), rest))
}

pub fn access_detach_at<A: Allocator>(file: FileNo, bytes: &[u8]) -> Option<(Event<A>, &[u8])>
    ensures { fields_behind event_rows 0x0d file.0 bytes.now ≡ option_map (λ x. (tagged_event x.0, x.1.now)) result }
{
    let (id, rest) = u32_at(bytes)?;
    Some((Event::AccessDetach(file, ObjId(id)), rest))
}

// What is pinned or unpinned, by which object of the file.
fn pin_at(file: FileNo, bytes: &[u8]) -> Option<(ObjId, PinRequest, &[u8])>
    ensures pinned { row_behind (pin 0x0e) file.0 bytes.now
        ≡ option_map (λ x. (plainly 0x0e (pin_numbers file.0 x.0.0 x.1), x.2.now)) result }
    ensures unpinned { row_behind (pin 0x0f) file.0 bytes.now
        ≡ option_map (λ x. (plainly 0x0f (pin_numbers file.0 x.0.0 x.1), x.2.now)) result }
{
    let (id, rest) = u32_at(bytes)?;
    let (iova, rest) = u64_at(rest)?;
    let (length, rest) = u64_at(rest)?;
    let (write, rest) = u8_at(rest)?;
    if write > 1 {
        return None;
    }
    let (iova, write) = (Iova(iova), write == 1);
    let request = PinRequest {
        iova,
        length,
        write,
    };
    Some((ObjId(id), request, rest))
}

pub fn access_pin_at<A: Allocator>(file: FileNo, bytes: &[u8]) -> Option<(Event<A>, &[u8])>
    ensures { fields_behind event_rows 0x0e file.0 bytes.now ≡ option_map (λ x. (tagged_event x.0, x.1.now)) result }
{
    let (id, request, rest) = pin_at(file, bytes)?;
    Some((Event::AccessPin(file, id, request), rest))
}

pub fn access_unpin_at<A: Allocator>(file: FileNo, bytes: &[u8]) -> Option<(Event<A>, &[u8])>
    ensures { fields_behind event_rows 0x0f file.0 bytes.now ≡ option_map (λ x. (tagged_event x.0, x.1.now)) result }
{
    let (id, request, rest) = pin_at(file, bytes)?;
    Some((Event::AccessUnpin(file, id, request), rest))
}

pub fn access_write_at<A: Allocator>(file: FileNo, bytes: &[u8]) -> Option<(Event<A>, &[u8])>
    ensures { fields_behind event_rows 0x10 file.0 bytes.now ≡ option_map (λ x. (tagged_event x.0, x.1.now)) result }
{
    let (id, rest) = u32_at(bytes)?;
    let (iova, rest) = u64_at(rest)?;
    match burst_at(rest) {
        Some((burst, rest)) => Some((Event::AccessWrite(file, ObjId(id), Iova(iova), burst), rest)),
        None => None,
    }
}
