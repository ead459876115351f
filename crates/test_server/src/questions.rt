//! What a core is asked by a device's port, and by no step of a script: how many turns the device has had, where a page
//! leads, and by which frames an access may pass; and to which page table a device is attached.

use crate::steps::{AGAIN, ATTACHED, BARRED, DEVICE, OTHER, Step, UNKNOWN, answered, config};
use iofd_words::{Config, DeviceNo, FrameNo, Iova, ObjId, Reply};
use iommufd_core::Core;
use std::alloc::Global;

// Each attachment, detachment and flush is a turn, a refused one too. The page that was unmapped is translated no more,
// and may be read and written at its frame until the flush, and at no other one.
static STEPS: [(Step, Reply); 35] = [
    (Step::AttachedTo(DEVICE), Reply::Done),
    (Step::Space, Reply::Id(ObjId(1))),
    (Step::UserPage, Reply::Frame(FrameNo(0))),
    (Step::Map, Reply::Iova(Iova(0x1000))),
    (Step::Bind, Reply::Id(ObjId(2))),
    (Step::AttachedTo(DEVICE), Reply::Done),
    (Step::Turns(DEVICE), Reply::Bytes(0)),
    (Step::Walk(0x1ffe), Reply::Done),
    (Step::Attach, Reply::Id(ObjId(3))),
    (Step::AttachedTo(DEVICE), Reply::Id(ObjId(3))),
    (Step::AttachedTo(DeviceNo(3)), UNKNOWN),
    (Step::Turns(DEVICE), Reply::Bytes(1)),
    (Step::Attach, ATTACHED),
    (Step::Turns(DEVICE), Reply::Bytes(2)),
    (Step::Flush, Reply::Done),
    (Step::Turns(DEVICE), Reply::Bytes(3)),
    (Step::Turns(OTHER), Reply::Bytes(0)),
    (Step::Turns(DeviceNo(3)), UNKNOWN),
    (Step::Walk(0x1ffe), Reply::Frame(FrameNo(0))),
    (Step::Walk(0x2000), Reply::Done),
    (Step::UserWrite, Reply::Done),
    (Step::KeptRead(0), Reply::Done),
    (Step::KeptRead(1), BARRED),
    (Step::Cached(1), BARRED),
    (Step::Unmap, AGAIN),
    (Step::Walk(0x1ffe), Reply::Done),
    (Step::KeptRead(0), Reply::Done),
    (Step::Cached(0), Reply::Passed(FrameNo(0))),
    (Step::Flush, Reply::Done),
    (Step::KeptRead(0), BARRED),
    (Step::Cached(0), BARRED),
    (Step::Unmap, Reply::Bytes(0x1000)),
    (Step::Detach, Reply::Done),
    (Step::AttachedTo(DEVICE), Reply::Done),
    (Step::Turns(DEVICE), Reply::Bytes(5)),
];

// The first step that is answered otherwise, if there is one.
fn first_wrong(core: &mut Core) -> Option<usize> {
    for (place, (step, reply)) in STEPS.iter().enumerate() {
        if answered(core, *step) != Some(*reply) {
            return Some(place);
        }
    }
    None
}

// Whether a new core answers them all.
fn answers_all(config: &Config, alloc: Global) -> bool {
    match Core::new(alloc, config) {
        Ok(mut core) => first_wrong(&mut core).is_none(),
        Err(_) => false,
    }
}

#[test]
fn a_core_is_asked_as_a_port_asks_it(rt: HostRuntime) {
    let alloc = rt.alloc();
    let answers = match config(alloc) {
        Some(config) => answers_all(&config, alloc),
        None => false,
    };
    assert!(rt; answers);
}
