//! Worked bytes of each structure, read and written. Refusals of structures are scripts (`tests/long`, `tests/rows`).

use ioctl_codec::{
    Command, DecodeError, RangesRequest, decode, encode, encode_ranges, encode_reply,
    encode_reply_to, round_trip, spellable_commands,
};
use iofd_words::{
    Cause, CopyRequest, Errno, Iova, MapFlags, MapRequest, NoMemory, ObjId, Refusal, Reply, Span,
};
use linked_list_allocator::LocalHeap;
use std::alloc::{AllocError, Allocator, Global};

const BUSY: Reply = Reply::Refused(Refusal {
    cause: Cause::InUse,
});

// Canonical bytes of each structure, and an ALLOW_IOVAS with two entries.
const DESTROY: &[u8] = b"\x08\0\0\0\x01\0\0\0";

const ALLOC: &[u8] = b"\x0c\0\0\0\0\0\0\0\0\0\0\0";

const ALLOW: &[u8] = b"\x18\0\0\0\x01\0\0\0\x02\0\0\0\0\0\0\0\0\0\0\0\0\0\0\0\
      \0\x10\0\0\0\0\0\0\xff\xff\xff\xff\xff\xff\xff\xff\x01\x02\x03\x04\x05\x06\x07\x08\x02\0\0\0\0\0\0\0";

const ALLOW_ALL: &[u8] = b"\x18\0\0\0\x05\0\0\0\0\0\0\0\0\0\0\0\0\0\0\0\0\0\0\0";

const COPY: &[u8] =
    b"\x28\0\0\0\x07\0\0\0\x01\x02\x03\x04\x05\x06\x07\x08\0\x20\0\0\0\0\0\0\0\x50\0\0\0\0\0\0\0\x40\0\0\0\x10\0\0";

// The server chooses the address in the target.
const COPY_CHOSEN: &[u8] =
    b"\x28\0\0\0\x06\0\0\0\x01\x02\x03\x04\x05\x06\x07\x08\0\x20\0\0\0\0\0\0\0\0\0\0\0\0\0\0\0\x40\0\0\0\x10\0\0";

const RANGES: &[u8] = b"\x20\0\0\0\x01\0\0\0\x01\0\0\0\0\0\0\0\0\0\0\0\0\0\0\0\0\0\0\0\0\0\0\0";

const MAP: &[u8] =
    b"\x28\0\0\0\x07\0\0\0\x01\0\0\0\0\0\0\0\0\0\x01\0\0\0\0\0\0\x20\0\0\0\0\0\0\0\x10\0\0\0\0\0\0";

// The server chooses the address.
const MAP_CHOSEN: &[u8] =
    b"\x28\0\0\0\x06\0\0\0\x01\0\0\0\0\0\0\0\0\0\x01\0\0\0\0\0\0\x20\0\0\0\0\0\0\0\0\0\0\0\0\0\0";

const UNMAP: &[u8] = b"\x18\0\0\0\x01\0\0\0\0\0\0\0\0\0\0\0\xff\xff\xff\xff\xff\xff\xff\xff";

const HWPT: &[u8] = b"\x18\0\0\0\0\0\0\0\x01\x02\x03\x04\x05\x06\x07\x08\0\0\0\0\0\0\0\0";

const ENABLE: &[u8] = b"\x10\0\0\0\x03\0\0\0\x01\0\0\0\0\0\0\0";

const DISABLE: &[u8] = b"\x10\0\0\0\x01\x02\x03\x04\0\0\0\0\0\0\0\0";

// Two pages from 0x1000 on.
const REPORT: &[u8] = b"\x20\0\0\0\x03\0\0\0\0\0\0\0\0\0\0\0\0\x10\0\0\0\0\0\0\0\x20\0\0\0\0\0\0";

// A report that clears: 256 pages from 2^32 on.
const CLEAR: &[u8] = b"\x20\0\0\0\x03\0\0\0\x01\0\0\0\0\0\0\0\0\0\0\0\x01\0\0\0\0\0\x10\0\0\0\0\0";

// Reports of 64 pages, and of 65.
const REPORT_64: &[u8] = b"\x20\0\0\0\x03\0\0\0\0\0\0\0\0\0\0\0\0\0\0\0\0\0\0\0\0\0\x04\0\0\0\0\0";

const REPORT_65: &[u8] =
    b"\x20\0\0\0\x03\0\0\0\0\0\0\0\0\0\0\0\0\0\0\0\0\0\0\0\0\x10\x04\0\0\0\0\0";

// With the structures' numbers. The first byte of each is the structure's length.
static CANONICAL: [(u32, &[u8]); 15] = [
    (0x3b80, DESTROY),
    (0x3b81, ALLOC),
    (0x3b82, ALLOW),
    (0x3b82, ALLOW_ALL),
    (0x3b83, COPY),
    (0x3b83, COPY_CHOSEN),
    (0x3b84, RANGES),
    (0x3b85, MAP),
    (0x3b85, MAP_CHOSEN),
    (0x3b86, UNMAP),
    (0x3b89, HWPT),
    (0x3bf0, ENABLE),
    (0x3bf0, DISABLE),
    (0x3bf1, REPORT),
    (0x3bf1, CLEAR),
];

fn map(flags: u32, length: u64, iova: u64) -> Command {
    Command::IoasMap(MapRequest {
        flags: MapFlags(flags),
        ioas: ObjId(1),
        user_va: 0x10000,
        length,
        iova: Iova(iova),
    })
}

fn copy(flags: u32, dst_iova: u64) -> Command {
    Command::IoasCopy(CopyRequest {
        flags: MapFlags(flags),
        dst_ioas: ObjId(0x0403_0201),
        src_ioas: ObjId(0x0807_0605),
        length: 0x2000,
        dst_iova: Iova(dst_iova),
        src_iova: Iova(0x1000_0000_4000),
    })
}

fn ranges(places: u32) -> RangesRequest {
    RangesRequest {
        ioas: ObjId(1),
        places,
    }
}

// What is written back with an answer.
const ALLOCATED: &[u8] = b"\x0c\0\0\0\0\0\0\0\x01\0\0\0";

const ALLOWED: &[u8] = b"\x18\0\0\0\x01\0\0\0\x02\0\0\0\0\0\0\0\0\0\0\0\0\0\0\0";

const COPIED: &[u8] =
    b"\x28\0\0\0\x06\0\0\0\x01\x02\x03\x04\x05\x06\x07\x08\0\x20\0\0\0\0\0\0\0\x30\0\0\0\0\0\0\0\x40\0\0\0\x10\0\0";

const MAPPED: &[u8] =
    b"\x28\0\0\0\x06\0\0\0\x01\0\0\0\0\0\0\0\0\0\x01\0\0\0\0\0\0\x20\0\0\0\0\0\0\0\x30\0\0\0\0\0\0";

const UNMAPPED: &[u8] = b"\x18\0\0\0\x01\0\0\0\0\0\0\0\0\0\0\0\0\x60\0\0\0\0\0\0";

const PART_UNMAPPED: &[u8] = b"\x18\0\0\0\x01\0\0\0\xff\x4f\0\0\0\0\0\0\0\x10\0\0\0\0\0\0";

const HWPT_MADE: &[u8] =
    b"\x18\0\0\0\0\0\0\0\x01\x02\x03\x04\x05\x06\x07\x08\x09\x0a\x0b\x0c\0\0\0\0";

// The page of 0x2000 was written.
const REPORTED: &[u8] = b"\x20\0\0\0\x03\0\0\0\0\0\0\0\0\0\0\0\0\x10\0\0\0\0\0\0\0\x20\0\0\0\0\0\0\
      \x02\0\0\0\0\0\0\0";

const CLEARED: &[u8] = b"\x20\0\0\0\x03\0\0\0\x01\0\0\0\0\0\0\0\0\0\0\0\x01\0\0\0\0\0\x10\0\0\0\0\0\
      \x01\0\0\0\0\0\0\x80\xef\xcd\xab\x89\x67\x45\x23\x01\0\0\0\0\0\0\0\0\xff\xff\xff\xff\xff\xff\xff\xff";

const REPORTED_64: &[u8] = b"\x20\0\0\0\x03\0\0\0\0\0\0\0\0\0\0\0\0\0\0\0\0\0\0\0\0\0\x04\0\0\0\0\0\
      \0\0\0\0\0\0\0\x80";

const REPORTED_65: &[u8] =
    b"\x20\0\0\0\x03\0\0\0\0\0\0\0\0\0\0\0\0\0\0\0\0\0\0\0\0\x10\x04\0\0\0\0\0\
      \0\0\0\0\0\0\0\x80\x01\0\0\0\0\0\0\0";

// An UNMAP from 0x4fff, of 0x1002 bytes.
const UNMAP_PART: &[u8] = b"\x18\0\0\0\x01\0\0\0\xff\x4f\0\0\0\0\0\0\x02\x10\0\0\0\0\0\0";

// A MAP of the last page of all.
const MAP_LAST: &[u8] =
    b"\x28\0\0\0\x07\0\0\0\x01\0\0\0\0\0\0\0\0\0\x01\0\0\0\0\0\0\x10\0\0\0\0\0\0\0\xf0\xff\xff\xff\xff\xff\xff";

// A structure with its number, a reply, and what is written back for it.
type Row = (u32, &'static [u8], Reply, &'static [u8]);

static GOOD_REPLIES: [Row; 17] = [
    (0x3b80, DESTROY, Reply::Done, DESTROY),
    (0x3b81, ALLOC, Reply::Id(ObjId(1)), ALLOCATED),
    (0x3b82, ALLOW, Reply::Done, ALLOWED),
    (0x3b83, COPY, Reply::Iova(Iova(0x5000)), COPY),
    (0x3b83, COPY_CHOSEN, Reply::Iova(Iova(0x3000)), COPIED),
    (0x3b85, MAP, Reply::Iova(Iova(0x1000)), MAP),
    (0x3b85, MAP_CHOSEN, Reply::Iova(Iova(0x3000)), MAPPED),
    (
        0x3b85,
        MAP_LAST,
        Reply::Iova(Iova(0xffff_ffff_ffff_f000)),
        MAP_LAST,
    ),
    (0x3b86, UNMAP, Reply::Bytes(0x6000), UNMAPPED),
    (0x3b86, UNMAP_PART, Reply::Bytes(0x1000), PART_UNMAPPED),
    (0x3b89, HWPT, Reply::Id(ObjId(0x0c0b_0a09)), HWPT_MADE),
    (0x3bf0, ENABLE, Reply::Done, ENABLE),
    (0x3bf0, DISABLE, Reply::Done, DISABLE),
    (0x3bf1, REPORT, Reply::Dirty([2, 0, 0, 0]), REPORTED),
    (
        0x3bf1,
        CLEAR,
        Reply::Dirty([0x8000_0000_0000_0001, 0x0123_4567_89ab_cdef, 0, u64::MAX]),
        CLEARED,
    ),
    (
        0x3bf1,
        REPORT_64,
        Reply::Dirty([1 << 63, 0, 0, 0]),
        REPORTED_64,
    ),
    (
        0x3bf1,
        REPORT_65,
        Reply::Dirty([1 << 63, 1, 0, 0]),
        REPORTED_65,
    ),
];

// Nothing is written back for a reply that isn't good.
static BAD_REPLIES: [Row; 13] = [
    (0x3b80, DESTROY, BUSY, b""),
    (0x3b81, ALLOC, Reply::Done, b""),
    (0x3b83, COPY, BUSY, b""),
    (0x3b83, COPY_CHOSEN, Reply::Done, b""),
    (0x3b84, RANGES, Reply::Done, b""),
    (0x3b85, MAP, BUSY, b""),
    (0x3b86, UNMAP, Reply::Pending(Errno::EAGAIN), b""),
    (0x3b89, HWPT, Reply::Done, b""),
    (0x3b89, HWPT, BUSY, b""),
    (0x3bf0, ENABLE, BUSY, b""),
    (0x3bf0, ENABLE, Reply::Dirty([0; 4]), b""),
    (0x3bf1, REPORT, Reply::Done, b""),
    (0x3bf1, CLEAR, BUSY, b""),
];

// Whether the bytes are refused for this cause.
fn refuses<A: Allocator>(alloc: A, nr: u32, bytes: &[u8], cause: Cause) -> bool {
    decode(alloc, nr, bytes).err() == Some(DecodeError::Refused(Refusal { cause }))
}

// Whether the bytes are a command of this number that has these canonical bytes.
fn reads(alloc: Global, nr: u32, bytes: &[u8], canonical: &[u8]) -> bool {
    match decode(alloc, nr, bytes) {
        Ok(command) => is_written(alloc, &command, nr, canonical),
        Err(_) => false,
    }
}

// Whether the command has this number and these canonical bytes.
fn is_written(alloc: Global, command: &Command, nr: u32, bytes: &[u8]) -> bool {
    if !command.is_spellable() || command.number() != nr {
        return false;
    }
    match encode(alloc, command) {
        Ok(written) => written.as_slice() == bytes,
        Err(_) => false,
    }
}

// A canonical structure, and the entries behind it.
fn parts(bytes: &[u8]) -> (&[u8], &[u8]) {
    let length = bytes.first().map_or(0, |length| usize::from(*length));
    bytes.split_at(length.min(bytes.len()))
}

#[test]
fn canonical_bytes_are_read_and_written(rt: HostRuntime) {
    for (nr, bytes) in &CANONICAL {
        assert!(rt; reads(rt.alloc(), *nr, *bytes, *bytes), "{nr:x}");
    }
    round_trip::<Global>();
    spellable_commands::<Global>();
}

// Whether this is written to the front of a buffer, and nothing behind it.
fn puts(command: &Command, reply: &Reply, bytes: &[u8]) -> bool {
    let mut buffer = [0xaa; 64];
    let count = encode_reply_to(command, reply, &mut buffer);
    &buffer[..count] == bytes && buffer[count..].iter().all(|byte| *byte == 0xaa)
}

// Whether this is written back for the command, in memory of its own and to the front of a buffer.
fn writes(alloc: Global, command: &Command, reply: &Reply, bytes: &[u8]) -> bool {
    match encode_reply(alloc, command, reply) {
        Ok(written) => written.as_slice() == bytes && puts(command, reply, bytes),
        Err(_) => false,
    }
}

// Whether the row's structure is read, and this is written back for it.
fn writes_back(alloc: Global, row: &Row) -> bool {
    let (nr, bytes, reply, written) = row;
    match decode(alloc, *nr, *bytes) {
        Ok(command) => writes(alloc, &command, reply, *written),
        Err(_) => false,
    }
}

#[test]
fn replies_are_written_back(rt: HostRuntime) {
    for (place, row) in GOOD_REPLIES.iter().enumerate() {
        assert!(rt; writes_back(rt.alloc(), row), "good reply {place}");
    }
    for (place, row) in BAD_REPLIES.iter().enumerate() {
        assert!(rt; writes_back(rt.alloc(), row), "bad reply {place}");
    }
}

const WRITTEN_RANGES: &[u8] = b"\x20\0\0\0\x01\0\0\0\x02\0\0\0\0\0\0\0\0\0\0\0\0\0\0\0\
      \0\x10\0\0\0\0\0\0\0\0\0\0\0\0\0\0\xff\xff\xdf\xfe\0\0\0\0\0\0\xf0\xfe\0\0\0\0\xff\xff\xff\xff\x7f\0\0\0";

// Whether so many bytes are written for two ranges, where there are so many places.
fn are_ranges_written(alloc: Global, places: u32, count: usize) -> bool {
    let below = Span::new(0, 0xfedf_ffff);
    let above = Span::new(0xfef0_0000, 0x7f_ffff_ffff);
    let (Some(below), Some(above)) = (below, above) else {
        return false;
    };
    match encode_ranges(alloc, ranges(places), &[below, above]) {
        Ok(written) => Some(written.as_slice()) == WRITTEN_RANGES.get(..count),
        Err(_) => false,
    }
}

#[test]
fn ranges_are_written_as_far_as_there_are_places(rt: HostRuntime) {
    for (places, count) in [(0, 32), (1, 48), (2, 64), (3, 64), (u32::MAX, 64)] {
        assert!(rt; are_ranges_written(rt.alloc(), places, count), "{places}");
    }
}

// A MAP whose address the server chooses, with an address all the same.
const IGNORED_IOVA: &[u8] =
    b"\x28\0\0\0\x06\0\0\0\x01\0\0\0\0\0\0\0\0\0\x01\0\0\0\0\0\0\x20\0\0\0\0\0\0\x77\0\0\0\0\0\0\0";

// A COPY whose address in the target the server chooses, with one all the same.
const IGNORED_DST_IOVA: &[u8] =
    b"\x28\0\0\0\x06\0\0\0\x01\x02\x03\x04\x05\x06\x07\x08\0\x20\0\0\0\0\0\0\x77\0\0\0\0\0\0\0\0\x40\0\0\0\x10\0\0";

// An IOVA_RANGES with `allowed_iovas` and `out_iova_alignment`.
const IGNORED_OUTPUT: &[u8] =
    b"\x20\0\0\0\x01\0\0\0\x01\0\0\0\0\0\0\0\xff\xff\xff\xff\xff\xff\xff\xff\xff\xff\xff\xff\xff\xff\xff\xff";

// A HWPT_ALLOC with `out_hwpt_id`.
const IGNORED_ID: &[u8] =
    b"\x18\0\0\0\0\0\0\0\x01\x02\x03\x04\x05\x06\x07\x08\xff\xff\xff\xff\0\0\0\0";

// With what they are read as.
static IGNORED: [(u32, &[u8], &[u8]); 4] = [
    (0x3b85, IGNORED_IOVA, MAP_CHOSEN),
    (0x3b83, IGNORED_DST_IOVA, COPY_CHOSEN),
    (0x3b84, IGNORED_OUTPUT, RANGES),
    (0x3b89, IGNORED_ID, HWPT),
];

#[test]
fn ignored_fields(rt: HostRuntime) {
    for (nr, bytes, canonical) in &IGNORED {
        assert!(rt; reads(rt.alloc(), *nr, *bytes, *canonical), "{nr:x}");
    }
}

fn is_unspellable(command: Command) -> bool {
    !command.is_spellable()
}

#[test]
fn commands_without_a_spelling(rt: HostRuntime) {
    // Unknown flags, and an address that isn't fixed.
    for flags in [6, 9, 15, 0] {
        assert!(rt; is_unspellable(map(flags, 0x2000, 0x1000)));
        assert!(rt; is_unspellable(copy(flags, 0x5000)));
    }
}

// Whether memory is asked for to write the command, and none where nothing is written back.
fn takes_memory<A: Allocator + Copy>(full: A, command: &Command) -> bool {
    command.is_spellable()
        && encode(full, command).err() == Some(NoMemory)
        && encode_reply(full, command, &BUSY).is_ok()
}

// Whether it is so of these bytes' command, and memory is asked for to read them only where they have entries.
fn bytes_take_memory<A: Allocator + Copy>(alloc: Global, full: A, nr: u32, bytes: &[u8]) -> bool {
    let has_entries = !parts(bytes).1.is_empty();
    let error = decode(full, nr, bytes).err();
    match decode(alloc, nr, bytes) {
        Ok(command) => {
            error == has_entries.then_some(DecodeError::Memory(NoMemory))
                && takes_memory(full, &command)
        }
        Err(_) => false,
    }
}

// Whether memory is asked for to write back an id, and ranges.
fn replies_take_memory<A: Allocator + Copy>(full: A) -> bool {
    let alloc: Command = Command::IoasAlloc;
    encode_reply(full, &alloc, &Reply::Id(ObjId(1))).err() == Some(NoMemory)
        && encode_ranges(full, ranges(1), &[]).err() == Some(NoMemory)
}

#[test]
fn want_of_memory(rt: HostRuntime) {
    // The smallest heap has one block, which is taken.
    let full = LocalHeap::new(rt.alloc(), 0).expect(&rt, "memory for a heap");
    let taken: Result<Vec<u8, &LocalHeap>, AllocError> = Vec::with_capacity(&full, 1);
    assert!(rt; taken.is_ok());
    for (nr, bytes) in &CANONICAL {
        assert!(rt; bytes_take_memory(rt.alloc(), &full, *nr, *bytes), "{nr:x}");
    }
    assert!(rt; replies_take_memory(&full));
    // Entries that aren't there are refused before memory is asked for.
    let most = b"\x18\0\0\0\x01\0\0\0\xff\xff\xff\xff\0\0\0\0\0\0\0\0\0\0\0\0";
    assert!(rt; refuses(&full, 0x3b82, most, Cause::Array));
}
