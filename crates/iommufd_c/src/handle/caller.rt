//! A caller of a server.

ghost use Rattle.std.specs.Prelude.{◌≡◌, ◌<◌, ◌++◌, ◌∷◌, [], length};
ghost use Rattle.std.specs.Arc.{arc_value};
ghost use Rattle.shared_iommufd.specs.Ports.{IsKeyOf};
ghost use Rattle.shared_iommufd.specs.Servers.{ArePassesOf, IsPassOf};
ghost use Rattle.iommufd_c.specs.Given.{AreKeysOf};

use super::client::Client;
use super::device::{Device, MARGIN};
use super::error::GiveError;
use iofd_words::Config;
use shared_iommufd::{ConfigError, Pass, PortKey, Server};
use std::alloc::Global;
use std::sync::Arc;

/// A caller of a server: a share of it, and a pass. Its calls are made one at a time, and none waits.
///
/// The one that opened the server has also what nobody has yet: passes, and the keys of the first devices.
pub struct Caller {
    pub(crate) server: Arc<Server, Global>,
    pub(crate) pass: Pass,
    pub(crate) spare: Vec<Pass>,
    pub(crate) keys: Vec<PortKey>,
    ghost owned: { IsPassOf (arc_value server) pass },
    ghost spared: { ArePassesOf (arc_value server) spare.items },
    ghost keyed: { AreKeysOf (arc_value server) keys.items },
}

// Written out, so that it is proved here alone and not in each crate that drops one.
impl Drop for Caller {
    fn drop(self) {
        let Caller {
            server: _,
            pass: _,
            spare: _,
            keys: _,
        } = self;
    }
}

// Takes the last of the passes, which are the server's.
fn last_pass(server: &Arc<Server, Global>, spare: &mut Vec<Pass>) -> Pass
    requires owned { ArePassesOf (arc_value server.now) spare.old.items }
    requires some { 0 < length spare.old.items }
    ensures taken { IsPassOf (arc_value server.now) result }
    ensures left { ArePassesOf (arc_value server.now) spare.new.items }
    ensures items { spare.old.items ≡ spare.new.items ++ result ∷ [] }
{
    let _ = server;
    let Some(pass) = spare.pop() else {
        unreachable!()
    };
    pass
}

// Takes the last of the keys, which are those of the server's first devices.
fn last_key(server: &Arc<Server, Global>, keys: &mut Vec<PortKey>) -> PortKey
    requires owned { AreKeysOf (arc_value server.now) keys.old.items }
    requires some { 0 < length keys.old.items }
    ensures taken { IsKeyOf (arc_value server.now) result }
    ensures number { result.device.0 ≡ length keys.old.items }
    ensures left { AreKeysOf (arc_value server.now) keys.new.items }
    ensures items { keys.old.items ≡ keys.new.items ++ result ∷ [] }
{
    let _ = server;
    let Some(key) = keys.pop() else {
        unreachable!()
    };
    key
}

impl Caller {
    ghost use Rattle.std.specs.Prelude.{IfErr, IfOk, IfSome};
    ghost use Rattle.shared_iommufd.specs.Limits.{IsRefusedFor};
    ghost use Rattle.iommufd_c.specs.Callers.{IsFirst};
    ghost use Rattle.iommufd_c.specs.Handles.{GivesPort, GivesShare};

    /// Opens a server with this configuration. Its first caller has the last of its passes, all others to give, and the
    /// keys of all devices. The limits are those of `Server::new`.
    ///
    /// The error is the first of lanes and cache that is outside its limits, or that memory was wanting.
    pub(crate) fn open(
        alloc: Global,
        config: &Config,
        lanes: u16,
        cache: u16,
    ) -> Result<Caller, ConfigError>
        ensures first { IfOk result (IsFirst config.now lanes cache) }
        ensures refused { IfErr result (IsRefusedFor lanes cache) }
    {
        // Whoever asks a configuration for its pool learns that it is within its limits.
        let _pool = config.pool();
        match Server::new(alloc, alloc, config, lanes, cache) {
            Ok((server, mut spare, keys)) => match Arc::new(alloc, server) {
                Ok(server) => {
                    let pass = last_pass(&server, &mut spare);
                    Ok(Caller {
                        server,
                        pass,
                        spare,
                        keys,
                    })
                }
                Err(_) => Err(ConfigError::Memory),
            },
            Err(error) => Err(error),
        }
    }

    /// Another caller of the same server, who has the last of the passes that this one has to give, and none to give.
    /// Memory is asked for only where there is a pass, and before the pass goes.
    pub(crate) fn share(&mut self, alloc: Global) -> Result<Box<Client>, GiveError>
        ensures { GivesShare self.old self.new result }
    {
        if self.spare.is_empty() {
            return Err(GiveError::NoneLeft);
        }
        let Some((mut room, server)) = self.room(alloc) else {
            return Err(GiveError::Memory);
        };
        let pass = last_pass(&self.server, &mut self.spare);
        let caller = Caller {
            server,
            pass,
            spare: Vec::new(alloc),
            keys: Vec::new(alloc),
        };
        *room = Client::Caller(caller);
        Ok(room)
    }

    /// The port of the last device whose key this caller has, by the last of the passes that it has to give. Memory is
    /// asked for only where there are both, and before they go.
    pub(crate) fn port(&mut self, alloc: Global) -> Result<Box<Client>, GiveError>
        ensures { GivesPort self.old self.new result }
    {
        if self.keys.is_empty() || self.spare.is_empty() {
            return Err(GiveError::NoneLeft);
        }
        let Some((mut room, server)) = self.room(alloc) else {
            return Err(GiveError::Memory);
        };
        let pass = last_pass(&self.server, &mut self.spare);
        let key = last_key(&self.server, &mut self.keys);
        let port = server.port(key, pass);
        let device = Device {
            before: MARGIN,
            server,
            port,
            after: MARGIN,
        };
        *room = Client::Device(device);
        Ok(room)
    }

    // Room for another client, and its share of the server; none where there is no memory.
    fn room(&self, alloc: Global) -> Option<(Box<Client>, Arc<Server, Global>)>
        ensures { IfSome result (λ r. arc_value r.1 ≡ arc_value self.now.server) }
    {
        match Box::new(alloc, Client::Vacant) {
            Ok(room) => match self.server.clone() {
                Ok(server) => Some((room, server)),
                Err(_) => None,
            },
            Err(_) => None,
        }
    }

    /// How many devices' keys this caller has: those of the first devices.
    pub(crate) fn keys_left(&self) -> usize
        ensures { result ≡ length self.now.keys.items }
    {
        self.keys.len()
    }
}
