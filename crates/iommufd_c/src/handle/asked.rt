//! What a server is asked for a caller, by its pass, or for a device, by its port. Each call is a value that says what
//! it does, so that how a handle is opened for a call, and put back behind it, stands once.

ghost use Rattle.std.specs.Prelude.{◌≡◌, ℕ, List};
ghost use Rattle.iommufd_c.specs.Calls.{OfPass, OfPort};
ghost use Rattle.shared_iommufd.specs.Ports.{IsPortOf};
ghost use Rattle.shared_iommufd.specs.Servers.{IsPassOf};

use super::Handle;
use super::client::Client;
use shared_iommufd::{Pass, Port, Server};
use std::alloc::Global;

/// A call of a caller.
pub(crate) trait OfCaller: Drop {
    /// What it tells.
    type Told;

    /// Where it may be made.
    ghost may: { Self → Type 0 };

    /// What it does: the server, the pass before, what is told, and the pass after.
    ghost does: { Self → OfPass Self.Told };

    fn ask(self, server: &Server, pass: &mut Pass) -> Self::Told
        requires may { may self }
        requires owned { IsPassOf server.now pass.old }
        ensures does { does self _ server.now pass.old result pass.new }
        ensures owned { IsPassOf server.now pass.new };
}

/// A call of a device's port, which may read into a buffer.
pub(crate) trait OfDevice: Drop {
    /// What it tells.
    type Told;

    /// What it does: the buffer before and after, the server, the port before, what is told, and the port after.
    ghost does: { Self → List ℕ → List ℕ → OfPort Self.Told };

    fn ask(self, server: &Server, port: &mut Port, buffer: &mut [u8]) -> Self::Told
        requires owned { IsPortOf server.now port.old }
        ensures does { does self buffer.old buffer.new _ server.now port.old result port.new }
        ensures owned { IsPortOf server.now port.new };
}

impl Handle {
    ghost use Rattle.std.specs.Prelude.{IfNone};
    ghost use Rattle.iommufd_c.specs.Calls.{ByPass, ByPort};
    ghost use Rattle.iommufd_c.specs.Handles.{OnCaller, OnDevice};

    /// Asks a caller's server. None where the handle is no caller's.
    pub(crate) fn of_caller<C: OfCaller>(&mut self, alloc: Global, call: C) -> Option<C::Told>
        requires { C.may call }
        ensures { OnCaller self.old.client result self.new.client (ByPass (C.does call)) }
    {
        match self.take(alloc) {
            Some(mut client) => {
                let told = match &mut *client {
                    Client::Caller(caller) => Some(call.ask(&caller.server, &mut caller.pass)),
                    Client::Device(_) | Client::Vacant => None,
                };
                *self = Handle::of(client);
                told
            }
            None => None,
        }
    }

    /// Asks a port's server. None where the handle is no port's; then the buffer stays as it was.
    pub(crate) fn of_device<C: OfDevice>(
        &mut self,
        alloc: Global,
        call: C,
        buffer: &mut [u8],
    ) -> Option<C::Told>
        ensures asks { OnDevice self.old.client result self.new.client (ByPort (C.does call buffer.old buffer.new)) }
        ensures kept { IfNone result (buffer.new ≡ buffer.old) }
    {
        match self.take(alloc) {
            Some(mut client) => {
                let told = match &mut *client {
                    Client::Device(device) => {
                        Some(call.ask(&device.server, &mut device.port, buffer))
                    }
                    Client::Caller(_) | Client::Vacant => None,
                };
                *self = Handle::of(client);
                told
            }
            None => None,
        }
    }
}
