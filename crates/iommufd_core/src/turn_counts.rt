//! How many turns each device has had: how often it was attached, detached or flushed, refused or not.

ghost use Rattle.std.specs.Prelude.{◌≡◌, ◌+◌, ◌==◌, if◌then◌else◌, false, IfOk, replicate};
ghost use Rattle.std.specs.Option.{option_map, option_map_or};
ghost use Rattle.iofd_words.specs.Turns.{is_turn_of};
ghost use Rattle.iofd_words.specs.declared.numbers.DeviceNo.{DeviceNo};
ghost use Rattle.iommufd_core.specs.TurnCounts.{HaveRoom, count_for, counted_with};

use iofd_words::{DeviceNo, Event, NoMemory};
use std::alloc::Allocator;

/// So many devices that have had no turn.
pub(crate) fn none<A: Allocator>(alloc: A, devices: usize) -> Result<Vec<u64, A>, NoMemory>
    ensures { IfOk result (λ counts. counts.items ≡ replicate devices 0) }
{
    Ok(vec![in alloc; 0; devices]?)
}

/// How many turns the device has had; None where there is no such device.
pub(crate) fn count_for(counts: &[u64], device: DeviceNo) -> Option<u64>
    ensures { result ≡ count_for counts.now device }
{
    let place = usize::from(device.0).checked_sub(1)?;
    counts.get(place).copied()
}

/// Counts one more where the event is a device's turn.
pub(crate) fn count<A: Allocator>(counts: &mut Vec<u64, A>, event: &Event<A>)
    requires { HaveRoom counts.old.items }
    ensures { (device : DeviceNo) → count_for counts.new.items device
        ≡ option_map (counted_with event.now device) (count_for counts.old.items device) }
{
    if let Some(device) = device_of(event) {
        count_one(counts, device);
    }
}

/// The device whose turn the event is.
fn device_of<A: Allocator>(event: &Event<A>) -> Option<DeviceNo>
    ensures { (device : DeviceNo) → is_turn_of device event.now
        ≡ option_map_or (λ turned. turned.0 == device.0) result false }
{
    match event {
        Event::Attach(device, _) | Event::Detach(device) | Event::Flush(device) => Some(*device),
        _ => None,
    }
}

/// One more for this device.
fn count_one<A: Allocator>(counts: &mut Vec<u64, A>, device: DeviceNo)
    requires { HaveRoom counts.old.items }
    ensures { (other : DeviceNo) → count_for counts.new.items other
        ≡ option_map (λ count. if device.0 == other.0 then count + 1 else count) (count_for counts.old.items other) }
{
    let Some(place) = usize::from(device.0).checked_sub(1) else {
        return;
    };
    if place < counts.len() {
        counts[place] += 1;
    }
}
