//! Servers that are ready for devices at work: with a page that is mapped, to which the devices are bound.

ghost use Rattle.std.specs.Prelude.{◌≡◌, false};
ghost use Rattle.guarded_core.specs.OfPort.{event_of_port};

use crate::site::Site;
use crate::tasks::mapping;
use iofd_words::{
    Config, DeviceConfig, DeviceNo, Event, FileNo, Iova, SourceId, SpanList, UserNo, Width,
};
use std::alloc::Global;
use std::sync::Wait;

fn devices(alloc: Global, count: u16) -> Vec<DeviceConfig> {
    let mut devices = Vec::new(alloc);
    for source in 0..count {
        let spans = SpanList::new(Vec::new(alloc));
        let device = DeviceConfig::new(SourceId(source), Width::Bits39, false, spans);
        if devices.push(device).is_err() {
            return devices;
        }
    }
    devices
}

/// A pool of 64 frames, user 1, who may have 32 pinned pages, its file 1, so many devices, and a pass more.
pub fn config(alloc: Global, count: u16) -> Option<Config> {
    match ([32].to_vec(alloc), [UserNo(1)].to_vec(alloc)) {
        (Ok(users), Ok(files)) => Config::new(
            64,
            users,
            files,
            devices(alloc, count),
            count.saturating_add(1),
        )
        .ok(),
        _ => None,
    }
}

// What is there before the devices are at work: a page, an address space, the page mapped in it, and each device bound.
fn event(step: u16) -> Event
    ensures { event_of_port result ≡ false }
{
    match step {
        0 => Event::UserMap(UserNo(1), 0x10000),
        1 => Event::IoasAlloc(FileNo(1)),
        2 => Event::Map(FileNo(1), mapping(Iova(0x1000))),
        _ => Event::Bind(FileNo(1), DeviceNo(step - 2)),
    }
}

/// Maps page 1 and binds the first devices, so many. Whether all of it was done.
pub fn prepare<S: Site, R: Wait>(rt: &R, site: &mut S, count: u16) -> bool {
    let mut all = true;
    for step in 0..count.saturating_add(3) {
        all = site.makes(rt, event(step)) && all;
    }
    all
}
