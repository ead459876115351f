//! A device's port, with its share of the server.

ghost use Rattle.std.specs.Arc.{arc_value};
ghost use Rattle.shared_iommufd.specs.Ports.{IsPortOf};

use shared_iommufd::{Port, PortCause, PortError, Server, TryError};
use std::alloc::Global;
use std::sync::Arc;

// Two lines of cache that nobody uses, before and behind a port: each of its calls writes it, and what stands beside it
// is another thread's.
pub(crate) type Margin = [u64; 16];

pub(crate) const MARGIN: Margin = [0; 16];

/// The port of a device, with a share of its server. Its calls are made one at a time, and none waits.
#[repr(C)]
pub struct Device {
    pub(crate) before: Margin,
    pub(crate) server: Arc<Server, Global>,
    pub(crate) port: Port,
    pub(crate) after: Margin,
    ghost owned: { IsPortOf (arc_value server) port },
}

// Written out, so that it is proved here alone and not in each crate that drops one.
impl Drop for Device {
    fn drop(self) {
        let Device {
            before: _,
            server: _,
            port: _,
            after: _,
        } = self;
    }
}

/// How a read or a write ended, and the place of the last record that it made, if it made one.
#[derive(Clone, Copy)]
pub struct Access {
    pub ended: Result<(), PortError<TryError<PortCause>>>,
    pub last: Option<u64>,
}
