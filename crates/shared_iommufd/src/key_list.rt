//! The keys of a new server.

ghost use Rattle.std.specs.Prelude.{◌≡◌, ◌+◌, ◌≤◌, ℕ, IfOk, Some, length, slice_get};
ghost use Rattle.std.specs.NonZero.{non_zero_usize_get};
ghost use Rattle.shared_iommufd.specs.declared.port_key.PortKey.{PortKey};

use crate::port_key::PortKey;
use iofd_words::{DeviceNo, NoMemory};
use port_cache::PortCache;
use std::alloc::{Allocator, Global};
use std::num::NonZeroUsize;

// One key for each of so many devices, in the order of their numbers, each with a cache of so many pages. The caches
// take memory of the first allocator.
pub(crate) fn keys_of<A: Allocator + Copy>(
    alloc: A,
    global: Global,
    devices: usize,
    most: NonZeroUsize,
) -> Result<Vec<PortKey<A>>, NoMemory>
    requires { devices ≤ 256 }
    ensures count { IfOk result (λ keys. length keys.items ≡ devices) }
    ensures each { IfOk result (λ keys. (i : ℕ) (key : PortKey A) → slice_get keys.items i ≡ Some key
        → (key.device.0 ≡ i + 1) × (key.cache.pages.cap ≡ non_zero_usize_get most)) }
{
    let mut keys = Vec::with_capacity(global, devices)?;
    for number in 0..devices as u16 {
        let Ok(key) = key_of(alloc, DeviceNo(number + 1), most) else {
            return Err(NoMemory);
        };
        keys.push_reserved(key);
    }
    Ok(keys)
}

// The key of a device, with a cache of so many pages.
fn key_of<A: Allocator + Copy>(
    alloc: A,
    device: DeviceNo,
    most: NonZeroUsize,
) -> Result<PortKey<A>, NoMemory>
    ensures { IfOk result (λ key. (key.device ≡ device) × (key.cache.pages.cap ≡ non_zero_usize_get most)) }
{
    let cache = PortCache::new(alloc, most)?;
    Ok(PortKey { device, cache })
}
