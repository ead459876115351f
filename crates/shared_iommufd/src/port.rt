//! The port of a device, by which its accesses reach the server.

ghost use Rattle.guarded_core.specs.Caches.{PortKeeps};

use crate::port_key::PortKey;
use crate::server::{Pass, Server};
use guarded_core::KeptCore;
use iofd_words::DeviceNo;
use lane_lock::Kept;
use port_cache::PortCache;
use std::alloc::{Allocator, Global};

/// By what a device reads and writes, and is attached, detached and flushed: a pass of its own, and a cache of the
/// pages that it was let through to.
///
/// The cache is empty, or its pages were translated so in a history that the pass has seen, in which the device had had
/// as many turns (attachments, detachments, flushes) as the port remembers. Under each guard these are compared first:
/// as long as there are no more, what is kept is good, whatever others have made since.
#[derive(Drop)]
pub struct Port<A: Allocator + Copy = Global>
where
    KeptCore<A>: Kept,
{
    pub(crate) device: DeviceNo,
    pub(crate) pass: Pass<A>,
    pub(crate) cache: PortCache<A>,
    // The place of the last record that the latest call made.
    pub(crate) last: Option<u64>,
    ghost kept: { PortKeeps device pass cache.turns cache.pages.entries },
}

impl<A: Allocator + Copy> Server<A> {
    ghost use Rattle.std.specs.Prelude.{◌≡◌};
    ghost use Rattle.shared_iommufd.specs.Ports.{IsKeyOf, IsPortOf, KeepsNothing, most_of};
    ghost use Rattle.shared_iommufd.specs.Servers.{IsPassOf};

    /// The port of the key's device, which makes its records by this pass. It takes no memory.
    pub fn port(&self, key: PortKey<A>, pass: Pass<A>) -> Port<A>
        requires key { IsKeyOf self.now key }
        requires owned { IsPassOf self.now pass }
        ensures owned { IsPortOf self.now result }
        ensures device { result.device ≡ key.device }
        ensures pass { result.pass ≡ pass }
        ensures last { result.last ≡ None }
        ensures most { most_of result ≡ key.cache.pages.cap }
        ensures empty { KeepsNothing result }
    {
        let _ = self;
        let (device, cache) = key.into_parts();
        Port {
            device,
            pass,
            cache,
            last: None,
        }
    }
}

impl<A: Allocator + Copy> Port<A> {
    ghost use Rattle.std.specs.Prelude.{◌≡◌};
    ghost use Rattle.shared_iommufd.specs.Ports.{most_of};

    /// The number of its device.
    pub fn device(&self) -> DeviceNo
        ensures { result ≡ self.now.device }
    {
        self.device
    }

    /// The place, among the records, of the last one that the latest call made: the latest read, write, translation,
    /// flush, attachment or detachment by this port, waiting or not. None where it made none.
    pub fn last(&self) -> Option<u64>
        ensures { result ≡ self.now.last }
    {
        self.last
    }

    /// Ends the port, which forgets all pages. Key and pass come back, for another port.
    pub fn close(self) -> (PortKey<A>, Pass<A>)
        ensures key { result.0.device ≡ self.device }
        ensures most { result.0.cache.pages.cap ≡ most_of self }
        ensures pass { result.1 ≡ self.pass }
    {
        let Port {
            device,
            pass,
            mut cache,
            last: _,
        } = self;
        cache.clear();
        (PortKey { device, cache }, pass)
    }
}
