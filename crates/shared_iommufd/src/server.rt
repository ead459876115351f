//! The server, and how it is opened.

ghost use Rattle.std.specs.Prelude.{◌≡◌, []};
ghost use Rattle.lane_lock.specs.Passes.{passes_of};
ghost use Rattle.guarded_core.specs.Opening.{opened_with};

use crate::error::ConfigError;
use crate::key_list::keys_of;
use crate::limits::first_outside;
use crate::port_key::PortKey;
use guarded_core::KeptCore;
use iofd_words::Config;
use iommufd_core::Core;
use lane_lock::LaneLock;
use std::alloc::{Allocator, Global};
use std::num::NonZeroUsize;

/// The right to call a server, for one caller at a time. It carries what was seen of the server's history, and the
/// records that were made by it.
pub type Pass<A = Global> = lane_lock::Pass<KeptCore<A>>;

/// A server for any number of callers, in threads of their own, each with a pass.
pub struct Server<A: Allocator + Copy = Global> {
    pub(crate) lock: LaneLock<KeptCore<A>>,
    // Memory of answers.
    pub(crate) alloc: A,
    ghost fresh: { (opened_with lock).records ≡ [] },
    ghost counted: { passes_of lock ≡ (opened_with lock).settings.passes },
}

// Written out, so that it is proved here alone and not, with all that a server has, in each crate that drops one.
impl<A: Allocator + Copy> Drop for Server<A> {
    fn drop(self) {
        let Server { lock: _, alloc: _ } = self;
    }
}

impl<A: Allocator + Copy> Server<A> {
    ghost use Rattle.std.specs.Prelude.{◌≤◌, IfErr, IfOk, IfSome, None, OnOk};
    ghost use Rattle.lane_lock.specs.Passes.{AllNew, lanes_of};
    ghost use Rattle.shared_iommufd.specs.Limits.{IsRefusedFor, first_outside};
    ghost use Rattle.shared_iommufd.specs.Ports.{AllKeys};
    ghost use Rattle.shared_iommufd.specs.Servers.{settings_of};

    /// A server with this configuration and no record, as many passes as the configuration says, in the order of their
    /// numbers, and a key for each of its devices, in theirs. The core and the caches of ports take memory of the first
    /// allocator, the lock of the second. The limits are 1 to 64 lanes, and 1 to 4096 pages for the cache of a port.
    ///
    /// The error is the first of lanes and cache that is outside its limits, or that memory was wanting.
    pub fn new<B: Allocator>(
        alloc: A,
        global: Global,
        config: &Config<B>,
        lanes: u16,
        cache: u16,
    ) -> Result<(Server<A>, Vec<Pass<A>>, Vec<PortKey<A>>), ConfigError>
        ensures limits { OnOk result (first_outside lanes cache ≡ None) }
        ensures settings { IfOk result (λ r. settings_of r.0 ≡ config.now) }
        ensures lanes { IfOk result (λ r. lanes_of r.0.lock ≡ lanes) }
        ensures passes { IfOk result (λ r. AllNew r.0.lock config.now.passes r.1.items) }
        ensures keys { IfOk result (λ r. AllKeys r.0 cache r.2.items) }
        ensures refused { IfErr result (IsRefusedFor lanes cache) }
    {
        if let Some(error) = first_outside(lanes, cache) {
            return Err(error);
        }
        // Whoever asks a configuration for its pool learns that it is within its limits.
        let _pool = config.pool();
        let Some(most) = NonZeroUsize::new(usize::from(cache)) else {
            unreachable!()
        };
        let Ok(keys) = keys_of(alloc, global, config.devices().len(), most) else {
            return Err(ConfigError::Memory);
        };
        match Server::without_keys(alloc, global, config, lanes) {
            Some((server, passes)) => Ok((server, passes, keys)),
            None => Err(ConfigError::Memory),
        }
    }

    // The server and its passes, unless memory is wanting.
    fn without_keys<B: Allocator>(
        alloc: A,
        global: Global,
        config: &Config<B>,
        lanes: u16,
    ) -> Option<(Server<A>, Vec<Pass<A>>)>
        requires lanes { (1 ≤ lanes) × (lanes ≤ 64) }
        ensures settings { IfSome result (λ r. settings_of r.0 ≡ config.now) }
        ensures lanes { IfSome result (λ r. lanes_of r.0.lock ≡ lanes) }
        ensures passes { IfSome result (λ r. AllNew r.0.lock config.now.passes r.1.items) }
    {
        let _pool = config.pool();
        let passes = config.passes();
        let Ok(core) = Core::new(alloc, config) else {
            return None;
        };
        match LaneLock::new(global, KeptCore { core }, lanes, passes) {
            Ok((lock, passes)) => Some((Server { lock, alloc }, passes)),
            Err(_) => None,
        }
    }

    // The lock and the memory of answers, where the server ends.
    pub(crate) fn into_parts(self) -> (LaneLock<KeptCore<A>>, A)
        ensures lock { result.0 ≡ self.lock }
        ensures alloc { result.1 ≡ self.alloc }
    {
        let Server { lock, alloc } = self;
        (lock, alloc)
    }
}
