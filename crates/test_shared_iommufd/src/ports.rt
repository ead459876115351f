//! A device's port beside another pass: pieces, and a page that the port keeps.

use crate::journals::audited;
use crate::opened::{SMALL, opened};
use crate::rows::are_rows;
use crate::served::{Caller, Device, Turn, Whole, ends};
use iofd_words::{
    AccessKind, DeviceNo, Event, Fault, FaultReason, FrameNo, Iova, NoMemory, ObjId, Query, Reply,
    Rights, SourceId, Translation, UserNo,
};
use shared_iommufd::{PortCause, PortError, Stamp, is_event_of_port, is_query_of_port};
use std::alloc::Global;
use std::sync::Wait;

// Page 1 is mapped, and the device is bound.
const ROWS: &str = "\
1 umap 1 10000 = ok frame 0
1 ioctl 1 3b81 0c0000000000000000000000 = 0 0c0000000000000001000000
1 ioctl 1 3b85 28000000070000000100000000000000000001000000000000100000000000000010000000000000 \
= 0 28000000070000000100000000000000000001000000000000100000000000000010000000000000
1 bind 1 1 = ok id 2
";

const PENDING: &str = "\
1 ioctl 1 3b86 180000000100000000100000000000000010000000000000 = 11 Pending
";

const UNMAPPED: &str = "\
1 ioctl 1 3b86 180000000100000000100000000000000010000000000000 = 0 180000000100000000100000000000000010000000000000
";

const PAGE: Iova = Iova(0x1000);

// More bytes than two pieces have.
static MANY: [u8; 130] = [0xa5; 130];

// Whether an access was denied so, once so many bytes had passed.
fn is_denied(
    outcome: Result<(), PortError>,
    passed: usize,
    page: u64,
    reason: FaultReason,
) -> bool {
    let kind = match reason {
        FaultReason::WriteDenied => AccessKind::Write,
        _ => AccessKind::Read,
    };
    let fault = Fault {
        page,
        source: SourceId(0x10),
        kind,
        reason,
    };
    outcome
        == Err(PortError {
            done: passed,
            cause: PortCause::Fault(fault),
        })
}

// Whether the port reads this byte of the page, and makes no record.
fn reads<D: Device>(device: &mut D, byte: u8) -> bool {
    let mut buffer = [0];
    device.read(PAGE, &mut buffer) == Ok(()) && buffer == [byte] && device.last() == None
}

// Whether the page is translated to the user's frame, for reads and writes.
fn is_translated<D: Device>(device: &mut D, kind: AccessKind) -> bool {
    let translation = Translation {
        frame: FrameNo(0),
        rights: Rights(3),
    };
    device.translate(PAGE, kind) == Some(translation)
}

/// Whether a record was made with this reply.
pub fn is_answered(stamp: Result<Stamp, NoMemory>, reply: Reply) -> bool {
    match stamp {
        Ok(stamp) => stamp.reply == reply,
        Err(NoMemory) => false,
    }
}

/// Whether the device is attached to the first object of its file by a page table that is the third.
pub fn attaches<D: Device>(device: &mut D) -> bool {
    is_answered(device.turn(Turn::Attach(ObjId(1))), Reply::Id(ObjId(3)))
}

// Whether accesses of two pages of which one is mapped pass in part.
fn pass_in_part<D: Device>(device: &mut D) -> bool {
    let mut buffer = [0x11; 4];
    let read = device.read(Iova(0x1ffe), &mut buffer);
    let written = device.write(Iova(0x1fff), &[0xb6, 0xb6]);
    is_denied(read, 2, 2, FaultReason::ReadDenied)
        && buffer == [0, 0, 0x11, 0x11]
        && is_denied(written, 1, 2, FaultReason::WriteDenied)
}

// Whether a device reads nothing while it isn't attached, and attaches again.
fn turns<D: Device>(device: &mut D) -> bool {
    is_answered(device.turn(Turn::Detach), Reply::Done)
        && is_denied(device.read(PAGE, &mut [0]), 0, 1, FaultReason::NoContext)
        && attaches(device)
}

// Whether no bytes are written with no record, and many by the last three, and read back.
fn pass_in_pieces<D: Device>(device: &mut D) -> bool {
    let mut buffer = [0; 130];
    device.write(PAGE, &[]) == Ok(())
        && device.last() == None
        && device.read(Iova(0xfee00000), &mut []) == Ok(())
        && device.write(PAGE, &MANY) == Ok(())
        && device.last() == Some(11)
        && device.read(PAGE, &mut buffer) == Ok(())
        && device.last() == None
        && buffer == MANY
}

// Whether a page that is kept is read, written and translated while an UNMAP waits for the device.
fn keeps<S: Caller + Device>(global: Global, server: &mut S) -> bool {
    reads(server, 0xa5)
        && are_rows(global, server, PENDING)
        && reads(server, 0xa5)
        && server.write(PAGE, &[0xc8]) == Ok(())
        && is_translated(server, AccessKind::Write)
        && are_rows(global, server, "0 uread 1 10000 1 = ok c8")
}

// Whether a port that is new keeps nothing.
fn keeps_nothing<D: Device>(device: &mut D) -> bool {
    let read = device.read(PAGE, &mut [0]);
    let written = device.write(PAGE, &[1]);
    is_denied(read, 0, 1, FaultReason::ReadDenied)
        && is_denied(written, 0, 1, FaultReason::WriteDenied)
        && device.translate(PAGE, AccessKind::Read) == None
}

// Whether the device goes on owing the flush meanwhile.
fn forgets<S: Caller + Device>(global: Global, server: &mut S) -> bool {
    keeps_nothing(server)
        && are_rows(global, server, PENDING)
        && is_answered(server.turn(Turn::Flush), Reply::Done)
        && are_rows(global, server, UNMAPPED)
}

// Whether all before that is so.
fn is_served<S: Caller + Device>(global: Global, server: &mut S) -> bool {
    are_rows(global, server, ROWS)
        && attaches(server)
        && pass_in_part(server)
        && turns(server)
        && pass_in_pieces(server)
        && keeps(global, server)
}

// Whether all of this is so of a server that has made no record.
fn holds<S: Caller + Device + Whole>(global: Global, mut server: S) -> bool {
    let served = is_served(global, &mut server);
    let mut server = server.reopened();
    let forgotten = forgets(global, &mut server);
    let count = audited(global, &mut server);
    ends(server, count) && served && forgotten
}

fn holds_of_new<R: Wait>(rt: &R, global: Global) -> bool {
    match opened(rt, global, &SMALL) {
        Some(server) => holds(global, server),
        None => false,
    }
}

#[test]
fn a_port_is_served(rt: HostRuntime) {
    assert!(rt; holds_of_new(&rt, rt.alloc()));
}

#[test]
fn a_port_alone_makes_its_devices_events(rt: HostRuntime) {
    let page: Event = Event::UserMap(UserNo(1), 0x10000);
    let flush: Event = Event::Flush(DeviceNo(1));
    assert!(rt; is_event_of_port(&flush) && !is_event_of_port(&page));
    let read = Query::DeviceRead {
        device: DeviceNo(1),
        iova: PAGE,
        len: 1,
    };
    assert!(rt; is_query_of_port(&read) && !is_query_of_port(&Query::FreeFrames));
}
