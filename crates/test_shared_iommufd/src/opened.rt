//! Servers of the tests, each with the port of its device, a pass beside it, and passes for threads.

ghost use Rattle.std.specs.Prelude.{IfSome};
ghost use Rattle.shared_iommufd.specs.Ports.{AllKeys, IsPortOf};
ghost use Rattle.shared_iommufd.specs.Servers.{ArePassesOf, IsPassOf};

use crate::test_server::TestServer;
use iofd_words::{Config, DeviceConfig, SourceId, SpanList, UserNo, Width};
use shared_iommufd::{Core, Pass, Port, PortKey, Server};
use std::alloc::Global;
use std::sync::Wait;

/// What a server is opened with.
#[derive(Clone, Copy)]
pub struct Size {
    /// How many frames its pool has.
    pub frames: u32,
    /// How many pinned pages the first user may have.
    pub pinned: u64,
    pub lanes: u16,
    /// How many pages the port keeps.
    pub keeps: u16,
    /// How many passes there are for threads.
    pub others: u16,
}

/// 16 frames and two lanes; the port keeps one page.
pub const SMALL: Size = Size {
    frames: 16,
    pinned: 8,
    lanes: 2,
    keeps: 1,
    others: 0,
};

// One x86 device of 39 bits, which keeps no other addresses for itself.
fn devices(global: Global) -> Option<Vec<DeviceConfig>> {
    let none = SpanList::new(Vec::new(global));
    let device = DeviceConfig::new(SourceId(0x10), Width::Bits39, true, none);
    let mut devices = Vec::new(global);
    match devices.push(device) {
        Ok(()) => Some(devices),
        Err(_) => None,
    }
}

// Two users, of whom the second may have 2 pinned pages, two files of user 1 and one of user 2, a device, and two
// passes more than those for threads.
fn config(global: Global, size: &Size) -> Option<Config> {
    let Ok(users) = [size.pinned, 2].to_vec(global) else {
        return None;
    };
    let Ok(files) = [UserNo(1), UserNo(1), UserNo(2)].to_vec(global) else {
        return None;
    };
    let passes = size.others.saturating_add(2);
    match devices(global) {
        Some(devices) => Config::new(size.frames, users, files, devices, passes).ok(),
        None => None,
    }
}

// The last of the passes.
fn last_pass(server: &Server, passes: &mut Vec<Pass>) -> Option<Pass>
    requires { ArePassesOf server.now passes.old.items }
    ensures taken { IfSome result (IsPassOf server.now) }
    ensures left { ArePassesOf server.now passes.new.items }
{
    let _ = server;
    passes.pop()
}

/// Puts the pass behind the others, if there is memory.
pub fn put_last(server: &Server, passes: &mut Vec<Pass>, pass: Pass)
    requires { ArePassesOf server.now passes.old.items × IsPassOf server.now pass }
    ensures { ArePassesOf server.now passes.new.items }
{
    let _ = server;
    let _put = passes.push(pass);
}

// The port of the first device, by the last of the passes.
fn first_port(
    server: &Server,
    keys: &mut Vec<PortKey>,
    passes: &mut Vec<Pass>,
    keeps: u16,
) -> Option<Port>
    requires keys { AllKeys server.now keeps keys.old.items }
    requires passes { ArePassesOf server.now passes.old.items }
    ensures port { IfSome result (IsPortOf server.now) }
    ensures left { ArePassesOf server.now passes.new.items }
{
    let _ = keeps;
    if keys.is_empty() {
        return None;
    }
    match last_pass(server, passes) {
        Some(pass) => Some(server.port(keys.swap_remove(0), pass)),
        None => None,
    }
}

// What these make, if the server has a device and two passes.
fn with_port<'a, R: Wait>(
    rt: &'a R,
    server: Server,
    mut keys: Vec<PortKey>,
    mut others: Vec<Pass>,
    keeps: u16,
) -> Option<TestServer<'a, R>>
    requires keys { AllKeys server keeps keys.items }
    requires passes { ArePassesOf server others.items }
{
    let Some(pass) = last_pass(&server, &mut others) else {
        return None;
    };
    match first_port(&server, &mut keys, &mut others, keeps) {
        Some(port) => Some(TestServer {
            rt,
            server,
            port,
            pass,
            others,
        }),
        None => None,
    }
}

// A server with this configuration.
fn opened_with<'a, R: Wait>(
    rt: &'a R,
    global: Global,
    config: &Config,
    lanes: u16,
    keeps: u16,
) -> Option<TestServer<'a, R>> {
    match Server::new(global, global, config, lanes, keeps) {
        Ok((server, passes, keys)) => with_port(rt, server, keys, passes, keeps),
        Err(_) => None,
    }
}

/// A server of this size.
pub fn opened<'a, R: Wait>(rt: &'a R, global: Global, size: &Size) -> Option<TestServer<'a, R>> {
    match config(global, size) {
        Some(config) => opened_with(rt, global, &config, size.lanes, size.keeps),
        None => None,
    }
}

/// The core of a server that ends.
pub fn closed(server: Server, passes: Vec<Pass>) -> Option<Core>
    requires { ArePassesOf server passes.items }
{
    match server.close(passes) {
        Ok(core) => Some(core),
        Err(_) => None,
    }
}
