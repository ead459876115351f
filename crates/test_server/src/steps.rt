//! Steps of the tests, and what a core answers to them.

use iofd_words::{
    AccessKind, Act, Answer, Burst, Cause, Config, DeviceConfig, DeviceNo, Errno, Event, FileNo,
    FrameNo, Iova, MapFlags, MapRequest, ObjId, PassNo, Query, Refusal, Reply, Rights, SourceId,
    SpanList, UnmapRequest, UserNo, Width,
};
use iommufd_core::Core;
use std::alloc::Global;

/// A device that is there, and whose number is meant where none is named.
pub(crate) const DEVICE: DeviceNo = DeviceNo(1);

/// Another one.
pub(crate) const OTHER: DeviceNo = DeviceNo(2);

const FILE: FileNo = FileNo(1);

const USER: UserNo = UserNo(1);

/// Address space 1, by which the page at `PAGE` is the user's page at `USER_PAGE`.
const SPACE: ObjId = ObjId(1);

const PAGE: u64 = 0x1000;

const USER_PAGE: u64 = 0x10000;

/// Devices of width 39 without a reserved span.
fn devices(alloc: Global) -> Option<Vec<DeviceConfig>> {
    let mut devices = Vec::new(alloc);
    for source in [0x18, 0x20] {
        let reserved = SpanList::new(Vec::new(alloc));
        let device = DeviceConfig::new(SourceId(source), Width::Bits39, false, reserved);
        devices.push(device).ok()?;
    }
    Some(devices)
}

/// A pool of five frames, a user with a file, and both devices.
pub(crate) fn config(alloc: Global) -> Option<Config> {
    let devices = devices(alloc)?;
    match ([4].to_vec(alloc), [USER].to_vec(alloc)) {
        (Ok(users), Ok(files)) => Config::new(5, users, files, devices, 1).ok(),
        _ => None,
    }
}

/// An event or a question, with what stands in all of them left out.
#[derive(Clone, Copy)]
pub(crate) enum Step {
    Space,
    UserPage,
    /// The user writes the last two bytes of its page.
    UserWrite,
    Map,
    Unmap,
    Bind,
    /// The device is attached to the address space.
    Attach,
    Detach,
    Flush,
    /// The device writes the two bytes by this frame, which it has cached.
    Cached(u32),
    /// The page table to which the device is attached: its id, or Done where it isn't attached.
    AttachedTo(DeviceNo),
    /// The number of the device's turns.
    Turns(DeviceNo),
    /// What the device's page at this address is translated to: its frame where it may be read and written, or Done
    /// where there is none.
    Walk(u64),
    /// The device reads the two bytes at this frame, which it has cached: Done.
    KeptRead(u32),
}

/// The two bytes that are written, and where the device has them.
fn bytes() -> Option<Burst> {
    Burst::new(&[0xbe, 0xef])
}

const WRITTEN: Iova = Iova(0x1ffe);

/// The event of a step; None of a question.
fn event(step: Step) -> Option<Event> {
    Some(match step {
        Step::Space => Event::IoasAlloc(FILE),
        Step::UserPage => Event::UserMap(USER, USER_PAGE),
        Step::UserWrite => Event::UserWrite(USER, USER_PAGE + 0xffe, bytes()?),
        Step::Map => Event::Map(
            FILE,
            MapRequest {
                flags: MapFlags(7),
                ioas: SPACE,
                user_va: USER_PAGE,
                length: PAGE,
                iova: Iova(PAGE),
            },
        ),
        Step::Unmap => Event::Unmap(
            FILE,
            UnmapRequest {
                ioas: SPACE,
                iova: Iova(PAGE),
                length: PAGE,
            },
        ),
        Step::Bind => Event::Bind(FILE, DEVICE),
        Step::Attach => Event::Attach(DEVICE, SPACE),
        Step::Detach => Event::Detach(DEVICE),
        Step::Flush => Event::Flush(DEVICE),
        Step::Cached(_)
        | Step::AttachedTo(_)
        | Step::Turns(_)
        | Step::Walk(_)
        | Step::KeptRead(_) => return None,
    })
}

pub(crate) const UNKNOWN: Reply = Reply::Refused(Refusal { cause: Cause::Id });

pub(crate) const ATTACHED: Reply = Reply::Refused(Refusal {
    cause: Cause::Bound,
});

/// The UNMAP is to be called again.
pub(crate) const AGAIN: Reply = Reply::Pending(Errno::EAGAIN);

/// The cached frame may not be used, so it wasn't asked for: a refusal that no event has.
pub(crate) const BARRED: Reply = Reply::Refused(Refusal {
    cause: Cause::Number,
});

/// What an event is answered; None where it wants for memory.
fn applied(core: &mut Core, event: Event) -> Option<Reply> {
    match core.apply(PassNo(0), &Act { event, via: None }) {
        Ok(stamp) => Some(stamp.reply),
        Err(_) => None,
    }
}

/// The same of the device's write by this cached frame, where it may pass at it.
fn written(core: &mut Core, frame: FrameNo) -> Option<Reply> {
    let bytes = bytes()?;
    let len = bytes.as_slice().len() as u8;
    if !core.may_pass(DEVICE, WRITTEN, len, AccessKind::Write, frame) {
        return Some(BARRED);
    }
    let act = Act {
        event: Event::DeviceWrite(DEVICE, WRITTEN, bytes),
        via: Some(frame),
    };
    match core.apply(PassNo(0), &act) {
        Ok(stamp) => Some(stamp.reply),
        Err(_) => None,
    }
}

/// The page table to which the device is attached.
fn page_table_of(core: &Core, device: DeviceNo) -> Reply {
    match core.look(&Query::AttachedTo(device)) {
        Answer::Attached(Some(id)) => Reply::Id(id),
        Answer::Attached(None) => Reply::Done,
        Answer::Refused(refusal) => Reply::Refused(refusal),
        _ => BARRED,
    }
}

/// How many turns the device has had.
fn turns_of(core: &Core, device: DeviceNo) -> Reply {
    match core.look(&Query::Turns(device)) {
        Answer::Count(count) => Reply::Bytes(count),
        Answer::Refused(refusal) => Reply::Refused(refusal),
        _ => BARRED,
    }
}

/// What the device's page is translated to.
fn translated(core: &Core, iova: u64) -> Reply {
    let query = Query::WalkFor {
        device: DEVICE,
        iova: Iova(iova),
    };
    match core.look(&query) {
        Answer::Walk(Some(to)) if to.rights == Rights(3) => Reply::Frame(to.frame),
        Answer::Walk(None) => Reply::Done,
        _ => BARRED,
    }
}

/// Whether the device reads the two bytes at this frame, where it may.
fn kept(core: &Core, frame: FrameNo) -> Reply {
    if !core.may_pass(DEVICE, WRITTEN, 2, AccessKind::Read, frame) {
        return BARRED;
    }
    let query = Query::CachedRead {
        device: DEVICE,
        iova: WRITTEN,
        len: 2,
        frame,
    };
    match core.look(&query) {
        Answer::Read(read) if bytes() == Some(read) => Reply::Done,
        _ => UNKNOWN,
    }
}

/// What a question is answered.
fn questioned(core: &mut Core, step: Step) -> Option<Reply> {
    match step {
        Step::Cached(frame) => written(core, FrameNo(frame)),
        Step::AttachedTo(device) => Some(page_table_of(core, device)),
        Step::Turns(device) => Some(turns_of(core, device)),
        Step::Walk(iova) => Some(translated(core, iova)),
        Step::KeptRead(frame) => Some(kept(core, FrameNo(frame))),
        _ => None,
    }
}

/// What a step is answered; None where it wants for memory.
pub(crate) fn answered(core: &mut Core, step: Step) -> Option<Reply> {
    match event(step) {
        Some(event) => applied(core, event),
        None => questioned(core, step),
    }
}
