//! Journals that are written: each kind of event once, and records that have no spelling.

use crate::heads::{LARGE, SMALL, behind_head};
use iofd_words::{
    AccessKind, Burst, Config, CopyRequest, DeviceNo, Event, Fault, FaultReason, FileNo, FrameNo,
    Iova, MapFlags, MapRequest, ObjId, PassNo, Record, Reply, SourceId, UserNo,
};
use journal_audit_bytes::{SpelledRecord, Version, read_head, read_record, typed_reply};
use journal_audit_writing::{JournalError, journal, write_record};
use std::alloc::Allocator;

// Each kind of event once, where there are three passes, and each kind of reply: by pass 2, and the last by pass 0.
const EACH: &[u8] = b"\x02\0\x01\x01\0\0\0\0\0\0\
      \x02\0\x02\x01\0\0\0\x01\0\0\0\0\0\x05\x03\0\0\0\0\0\0\0\
      \x02\0\x03\x01\0\0\0\x01\0\0\0\0\0\x08\x08\0\0\0\0\
      \x02\0\x04\x01\0\x08\0\x01\0\0\0\0\0\x03\xaa\xbb\xcc\0\0\0\0\0\
      \x02\0\x05\x01\0\x02\0\x01\x07\0\0\0\0\0\0\0\
      \x02\0\x06\x01\0\x07\0\0\0\x08\x0c\0\0\0\0\
      \x02\0\x07\x02\0\x04\0\0\0\x01\x04\0\0\0\x02\0\x09\0\0\0\x0a\0\0\0\0\0\
      \x02\0\x08\x02\0\0\0\0\x01\0\x0a\0\0\0\
      \x02\0\x09\x02\0\0\0\0\0\0\
      \x02\0\x0a\x02\0\xfe\x1f\0\0\0\0\0\0\x02\xbe\xef\x07\x05\0\0\0\0\
      \x02\0\x0a\x02\0\xfe\x1f\0\0\0\0\0\0\x02\xbe\xef\x06\x0b\0\0\0\0\0\0\0\
      \x02\0\x0b\x01\0\x01\x02\0\0\0\0\0\0\0\
      \x02\0\x0c\x01\0\x02\0\0\0\x03\0\0\0\0\0\0\0\0\
      \x02\0\x0d\x01\0\x02\0\0\0\0\0\0\0\0\
      \x02\0\x0e\x01\0\x02\0\0\0\0\x10\0\0\0\0\0\0\0\x20\0\0\0\0\0\0\x01\0\0\0\0\0\
      \x02\0\x0f\x01\0\x02\0\0\0\0\x40\0\0\0\0\0\0\0\x30\0\0\0\0\0\0\0\0\0\0\0\0\
      \x02\0\x10\x01\0\x02\0\0\0\xfe\x1f\0\0\0\0\0\0\x02\xbe\xef\0\0\0\0\0\
      \x02\0\x80\x01\0\x02\0\0\0\0\0\0\0\0\
      \x02\0\x81\x01\0\x01\x01\0\0\0\0\0\0\0\
      \x02\0\x82\x01\0\x02\0\0\0\x01\0\0\0\0\x10\0\0\0\0\0\0\xff\x1f\0\0\0\0\0\0\0\0\0\0\0\
      \x02\0\x83\x01\0\x07\0\0\0\x01\0\0\0\x02\0\0\0\0\x10\0\0\0\0\0\0\0\x80\0\0\0\0\0\0\0\x20\0\0\0\0\0\0\
      \x02\0\x80\0\0\0\0\0\0\0\0\0\0\
      \x02\0\x85\x01\0\x06\0\0\0\x01\0\0\0\0\0\x01\0\0\0\0\0\0\x10\0\0\0\0\0\0\0\0\0\0\0\0\0\0\
      \x02\0\x40\0\0\0\0\0\0\0\0\0\0\
      \x02\0\x86\x01\0\x01\0\0\0\0\x10\0\0\0\0\0\0\0\x20\0\0\0\0\0\0\x03\0\x20\0\0\0\0\0\0\0\0\0\0\
      \x02\0\x86\x01\0\x01\0\0\0\0\x10\0\0\0\0\0\0\0\x20\0\0\0\0\0\0\x04\x0b\0\0\0\0\
      \x02\0\xf0\x01\0\x03\0\0\0\x01\0\0\0\0\0\
      \x02\0\xf1\x01\0\x03\0\0\0\0\x10\0\0\0\0\0\0\0\x20\0\0\0\0\0\0\x09\x02\0\0\0\0\0\0\0\
      \0\0\0\0\0\0\0\0\0\0\0\0\0\0\0\0\0\0\0\0\0\0\0\x80\0\0\0\0\
      \0\0\x89\x01\0\x02\0\0\0\x01\0\0\0\x01\x05\0\0\0\0\0\0\0";

// The record that the bytes tell, if they tell one and there is memory for it.
fn typed<A: Allocator, B: Allocator>(
    alloc: A,
    config: &Config<B>,
    spelled: SpelledRecord<A>,
) -> Option<Record<A>> {
    let SpelledRecord {
        pass,
        event,
        reply,
        taken,
        given,
    } = spelled;
    let reply = typed_reply(config, &event, reply)?;
    let (taken, given) = (taken.into_vec(), given.into_vec());
    Record::new(alloc, pass, event, reply, taken, given).ok()
}

// The records that the bytes tell, up to 32, if they tell records to their end.
fn records_of<A: Allocator + Copy, B: Allocator>(
    alloc: A,
    config: &Config<B>,
    bytes: &[u8],
) -> Option<Vec<Record<A>, A>> {
    let mut records = Vec::new(alloc);
    let mut rest = bytes;
    for _ in 0..32 {
        if rest.is_empty() {
            return Some(records);
        }
        let (spelled, after) = read_record(alloc, Version::Two, config.passes(), rest).ok()?;
        records.push(typed(alloc, config, spelled)?).ok()?;
        rest = after;
    }
    None
}

// Whether the journal of these records is this head, but with version 2's mark, and these records.
fn is_journal<A: Allocator + Copy, B: Allocator>(
    alloc: A,
    config: &Config<B>,
    records: &[Record<A>],
    head: &[u8],
    behind: &[u8],
) -> bool {
    match journal(alloc, config, records) {
        Ok(bytes) => behind_head(bytes.as_slice(), head) == Some(behind),
        Err(_) => false,
    }
}

// Whether what these bytes tell, so many records behind a head of version 1, is written as the same in version 2.
fn is_written_again<A: Allocator + Copy>(
    alloc: A,
    head: &[u8],
    behind: &[u8],
    count: usize,
) -> bool {
    match read_head(alloc, head) {
        Ok((_, config, _)) => match records_of(alloc, &config, behind) {
            Some(records) => {
                records.len() == count
                    && is_journal(alloc, &config, records.as_slice(), head, behind)
            }
            None => false,
        },
        Err(_) => false,
    }
}

#[test]
fn each_event_is_written(rt: HostRuntime) {
    assert!(rt; is_written_again(rt.alloc(), LARGE, EACH, 27));
}

// The record of a step that moved no frames.
fn record_of<A: Allocator + Copy>(
    alloc: A,
    pass: u16,
    event: Event<A>,
    reply: Reply,
) -> Option<Record<A>> {
    let (taken, given) = (Vec::new(alloc), Vec::new(alloc));
    Record::new(alloc, PassNo(pass), event, reply, taken, given).ok()
}

fn map<A: Allocator>(flags: u32, iova: u64) -> Event<A> {
    let request = MapRequest {
        flags: MapFlags(flags),
        ioas: ObjId(1),
        user_va: 0x1_0000,
        length: 0x1000,
        iova: Iova(iova),
    };
    Event::Map(FileNo(1), request)
}

fn copy<A: Allocator>(flags: u32, iova: u64) -> Event<A> {
    let request = CopyRequest {
        flags: MapFlags(flags),
        dst_ioas: ObjId(1),
        src_ioas: ObjId(1),
        length: 0x1000,
        dst_iova: Iova(iova),
        src_iova: Iova(0x1000),
    };
    Event::Copy(FileNo(1), request)
}

// A write of a device at 0x2000, if the burst is one.
fn device_write<A: Allocator>(device: u16) -> Option<Event<A>> {
    let burst = Burst::new(b"\xaa")?;
    Some(Event::DeviceWrite(DeviceNo(device), Iova(0x2000), burst))
}

// Whether this record is written, and else is Unspelt, and then leaves the bytes as they were.
fn is_spelt<A: Allocator + Copy, B: Allocator>(
    alloc: A,
    config: &Config<B>,
    record: &Record<A>,
) -> Option<bool> {
    let mut out = Vec::from_slice(alloc, b"before").ok()?;
    let written = write_record(config, record, &mut out).is_ok();
    let is_same = out.as_slice() == b"before".as_slice();
    if written == is_same {
        return None;
    }
    Some(written)
}

// An event of a case: of a MAP and a COPY the flags and the address, of a device's write the device.
#[derive(Clone, Copy)]
enum What {
    Map(u32, u64),
    Copy(u32, u64),
    Write(u16),
}

fn event_of<A: Allocator>(what: What) -> Option<Event<A>> {
    match what {
        What::Map(flags, iova) => Some(map(flags, iova)),
        What::Copy(flags, iova) => Some(copy(flags, iova)),
        What::Write(device) => device_write(device),
    }
}

// A reply of a case: an address, or a fault, by its source, page and kind.
#[derive(Clone, Copy)]
enum Said {
    At(u64),
    Fault(u16, u64, AccessKind),
}

fn reply_of(said: Said) -> Reply {
    match said {
        Said::At(iova) => Reply::Iova(Iova(iova)),
        Said::Fault(source, page, kind) => Reply::Fault(Fault {
            page,
            source: SourceId(source),
            kind,
            reason: FaultReason::WriteDenied,
        }),
    }
}

// Records in a journal like the large one, by pass, event and reply. The first ten have no spelling: a pass that isn't
// there; an address that is ignored and isn't 0; an unknown flag; both again of a COPY; a fault of another source, of
// another page, of a read; a fault of a device that isn't there, and of a MAP.
static CASES: [(u16, What, Said); 14] = [
    (3, What::Map(7, 0x1000), Said::At(0x1000)),
    (0, What::Map(6, 0x1000), Said::At(0x1000)),
    (0, What::Map(15, 0x1000), Said::At(0x1000)),
    (0, What::Copy(6, 0x1000), Said::At(0x1000)),
    (0, What::Copy(8, 0), Said::At(0x1000)),
    (0, What::Write(2), Said::Fault(0x10, 2, AccessKind::Write)),
    (0, What::Write(2), Said::Fault(0x100, 3, AccessKind::Write)),
    (0, What::Write(2), Said::Fault(0x100, 2, AccessKind::Read)),
    (0, What::Write(3), Said::Fault(0x100, 2, AccessKind::Write)),
    (
        0,
        What::Map(7, 0x1000),
        Said::Fault(0x100, 2, AccessKind::Write),
    ),
    (2, What::Map(7, 0x1000), Said::At(0x1000)),
    (0, What::Map(6, 0), Said::At(0x1000)),
    (0, What::Copy(1, 0x1000), Said::At(0x1000)),
    (0, What::Write(2), Said::Fault(0x100, 2, AccessKind::Write)),
];

// What `is_spelt` says of a case.
fn is_case_spelt<A: Allocator + Copy, B: Allocator>(
    alloc: A,
    config: &Config<B>,
    case: &(u16, What, Said),
) -> Option<bool> {
    let (pass, what, said) = *case;
    let record = record_of(alloc, pass, event_of(what)?, reply_of(said))?;
    is_spelt(alloc, config, &record)
}

// Whether of the cases just those from the tenth on are spelled.
fn are_cases<A: Allocator + Copy>(alloc: A) -> bool {
    match read_head(alloc, LARGE) {
        Ok((_, config, _)) => CASES.iter().enumerate().all(|(number, case)| is_case_spelt(
            alloc, &config, case,
        ) == Some(number >= 10)),
        Err(_) => false,
    }
}

#[test]
fn records_without_spelling_are_unspelt(rt: HostRuntime) {
    assert!(rt; are_cases(rt.alloc()));
}

// Whether of two records the second, whose pass isn't there, is told.
fn is_told<A: Allocator + Copy, B: Allocator>(alloc: A, config: &Config<B>) -> Option<bool> {
    let mut records = Vec::new(alloc);
    for pass in 0..3 {
        let event = Event::UserMap(UserNo(1), 0x1_0000);
        records
            .push(record_of(alloc, pass, event, Reply::Frame(FrameNo(0)))?)
            .ok()?;
    }
    let told = journal(alloc, config, records.as_slice()).err();
    Some(told == Some(JournalError::Unspelt { index: 1 }))
}

fn is_first_told<A: Allocator + Copy>(alloc: A) -> bool {
    match read_head(alloc, SMALL) {
        Ok((_, config, _)) => is_told(alloc, &config) == Some(true),
        Err(_) => false,
    }
}

#[test]
fn the_first_unspelt_record_is_told(rt: HostRuntime) {
    assert!(rt; is_first_told(rt.alloc()));
}
