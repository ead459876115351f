//! How handles are opened, by another one too, and closed.

ghost use Rattle.std.specs.Prelude.{◌≡◌};

use super::Handle;
use super::caller::Caller;
use super::client::Client;
use super::error::{GiveError, OpenError};
use iofd_words::Config;
use shared_iommufd::ConfigError;
use std::alloc::Global;

impl Handle {
    ghost use Rattle.std.specs.Prelude.{None, is_some};
    ghost use Rattle.iommufd_c.specs.Handles.{GivesDevice, Opens, Shares};

    /// Opens a server with this configuration, for a handle that is closed. See `Caller::open`.
    pub(crate) fn open(
        &mut self,
        alloc: Global,
        config: &Config,
        lanes: u16,
        cache: u16,
    ) -> Result<(), OpenError>
        ensures { Opens self.old.client config.now lanes cache result self.new.client }
    {
        if self.is_open(alloc) {
            return Err(OpenError::Open);
        }
        match Caller::open(alloc, config, lanes, cache) {
            Ok(caller) => match Box::new(alloc, Client::Caller(caller)) {
                Ok(client) => {
                    *self = Handle::of(client);
                    Ok(())
                }
                Err(_) => Err(OpenError::Server(ConfigError::Memory)),
            },
            Err(error) => Err(OpenError::Server(error)),
        }
    }

    /// Opens another handle, which is closed, for another caller of the same server. See `Caller::share`.
    pub(crate) fn share(&mut self, alloc: Global, other: &mut Handle) -> Result<(), GiveError>
        ensures { Shares self.old.client other.old.client result self.new.client other.new.client }
    {
        if other.is_open(alloc) {
            return Err(GiveError::Open);
        }
        let Some(mut client) = self.take(alloc) else {
            return Err(GiveError::NoCaller);
        };
        let given = match &mut *client {
            Client::Caller(caller) => caller.share(alloc),
            Client::Device(_) | Client::Vacant => Err(GiveError::NoCaller),
        };
        *self = Handle::of(client);
        match given {
            Ok(client) => {
                *other = Handle::of(client);
                Ok(())
            }
            Err(error) => Err(error),
        }
    }

    /// Opens another handle, which is closed, for the port of a device, whose number is told. See `Caller::port`.
    pub(crate) fn port(&mut self, alloc: Global, other: &mut Handle) -> Result<usize, GiveError>
        ensures { GivesDevice self.old.client other.old.client result self.new.client other.new.client }
    {
        if other.is_open(alloc) {
            return Err(GiveError::Open);
        }
        let Some(mut client) = self.take(alloc) else {
            return Err(GiveError::NoCaller);
        };
        let (number, given) = match &mut *client {
            Client::Caller(caller) => (caller.keys_left(), caller.port(alloc)),
            Client::Device(_) | Client::Vacant => (0, Err(GiveError::NoCaller)),
        };
        *self = Handle::of(client);
        match given {
            Ok(client) => {
                *other = Handle::of(client);
                Ok(number)
            }
            Err(error) => Err(error),
        }
    }

    /// Closes the handle, and frees what it had; the server with its last handle. Answers whether it was open.
    pub(crate) fn close(&mut self, alloc: Global) -> bool
        ensures value { result ≡ is_some self.old.client }
        ensures closed { self.new.client ≡ None }
    {
        self.take(alloc).is_some()
    }
}
