//! The keys of ports.

ghost use Rattle.std.specs.Prelude.{◌≡◌, []};

use iofd_words::DeviceNo;
use port_cache::PortCache;
use std::alloc::{Allocator, Global};

/// The right to the port of one device, with the port's cache, which is empty. A server gives one out for each of its
/// devices, and no more.
pub struct PortKey<A: Allocator + Copy = Global> {
    pub(crate) device: DeviceNo,
    pub(crate) cache: PortCache<A>,
    ghost empty: { cache.pages.entries ≡ [] },
}

// Written out, so that it is proved here alone and not in each crate that drops one.
impl<A: Allocator + Copy> Drop for PortKey<A> {
    fn drop(self) {
        let PortKey {
            device: _,
            cache: _,
        } = self;
    }
}

impl<A: Allocator + Copy> PortKey<A> {
    // The device and the cache, for a port.
    pub(crate) fn into_parts(self) -> (DeviceNo, PortCache<A>)
        ensures device { result.0 ≡ self.device }
        ensures cache { result.1 ≡ self.cache }
        ensures empty { result.1.pages.entries ≡ [] }
    {
        let PortKey { device, cache } = self;
        (device, cache)
    }
}
