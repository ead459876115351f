//! Records: each tells what it was made of, whatever the reply and the frames that moved.

use iofd_words::{
    AccessKind, Cause, Errno, Event, Fault, FaultReason, FileNo, FrameNo, Iova, ObjId, PassNo,
    Record, Refusal, Reply, SourceId,
};
use linked_list_allocator::LocalHeap;
use std::alloc::{Allocator, Global};
use std::mem::size_of;

// One reply of each kind.
const REPLIES: &[Reply] = &[
    Reply::Done,
    Reply::Id(ObjId(0x7fff_ffff)),
    Reply::Iova(Iova(0xffff_ffff_ffff_f000)),
    Reply::Bytes(u64::MAX),
    Reply::Pending(Errno::EDEADLOCK),
    Reply::Frame(FrameNo(u32::MAX)),
    Reply::Passed(FrameNo(3)),
    Reply::Fault(Fault {
        page: 0xf_ffff_ffff_ffff,
        source: SourceId(0x0810),
        kind: AccessKind::Write,
        reason: FaultReason::WriteDenied,
    }),
    REPORT,
    Reply::Refused(Refusal {
        cause: Cause::Tracking,
    }),
];

const REPORT: Reply = Reply::Dirty([1, 2, 3, u64::MAX]);

// The record of a CLOSE that was answered so and moved these frames.
fn record_of<A: Allocator + Copy>(
    alloc: A,
    reply: Reply,
    taken: &[FrameNo],
    given: &[FrameNo],
) -> Option<Record<A>> {
    let first = taken.to_vec(alloc).ok()?;
    let others = given.to_vec(alloc).ok()?;
    let event = Event::Close(FileNo(5));
    Record::new(alloc, PassNo(9), event, reply, first, others).ok()
}

fn is_told(alloc: Global, reply: Reply, taken: &[FrameNo], given: &[FrameNo]) -> bool {
    match record_of(alloc, reply, taken, given) {
        Some(one) => {
            let of_close = matches!(one.event(), Event::Close(FileNo(5)));
            let moved = one.taken() == taken && one.given() == given;
            of_close && moved && one.pass() == PassNo(9) && one.reply() == reply
        }
        None => false,
    }
}

// Whether each reply is told beside these frames.
fn are_told(alloc: Global, taken: &[FrameNo], given: &[FrameNo]) -> bool {
    for reply in REPLIES {
        if !is_told(alloc, *reply, taken, given) {
            return false;
        }
    }
    true
}

#[test]
fn a_record_tells_what_it_was_made_of(rt: HostRuntime) {
    let frames = &[FrameNo(2), FrameNo(3)];
    assert!(rt; are_told(rt.alloc(), &[], &[]));
    assert!(rt; are_told(rt.alloc(), frames, &[]));
    assert!(rt; are_told(rt.alloc(), &[], frames));
    assert!(rt; are_told(rt.alloc(), &[FrameNo(5)], frames));
}

#[test]
fn a_record_takes_128_bytes(rt: HostRuntime) {
    assert_eq!(rt; size_of::<Record>(), 128);
}

// Whether the record is had once a block takes what is left of the heap behind its frames.
fn is_had_behind_a_block(
    heap: &LocalHeap,
    reply: Reply,
    taken: &[FrameNo],
    given: &[FrameNo],
) -> Option<bool> {
    let first = taken.to_vec(heap).ok()?;
    let others = given.to_vec(heap).ok()?;
    let _block = Vec::<u8, &LocalHeap>::with_capacity(heap, heap.free()).ok()?;
    let event = Event::Close(FileNo(5));
    Some(Record::new(heap, PassNo(9), event, reply, first, others).is_ok())
}

// The same in a heap of its own.
fn is_had(alloc: Global, reply: Reply, taken: &[FrameNo], given: &[FrameNo]) -> Option<bool> {
    let heap = LocalHeap::new(alloc, 1 << 12).ok()?;
    is_had_behind_a_block(&heap, reply, taken, given)
}

#[test]
fn frames_of_both_kinds_want_for_memory(rt: HostRuntime) {
    let frames = &[FrameNo(2), FrameNo(3), FrameNo(5), FrameNo(7)];
    assert_eq!(rt; is_had(rt.alloc(), Reply::Done, frames, &[]), Some(true));
    assert_eq!(rt; is_had(rt.alloc(), Reply::Done, &[], frames), Some(true));
    assert_eq!(rt; is_had(rt.alloc(), REPORT, &[], &[]), Some(true));
    assert_eq!(rt;
        is_had(rt.alloc(), Reply::Done, frames, frames),
        Some(false)
    );
    assert_eq!(rt; is_had(rt.alloc(), REPORT, frames, &[]), Some(false));
}

// How many bytes of the heap are used more once a record keeps these frames as taken, and none as given back, whose list
// has room for so many. The record is gone then.
fn taken_by_a_record(heap: &LocalHeap, frames: &[FrameNo], room: usize) -> Option<usize> {
    let taken = frames.to_vec(heap).ok()?;
    let given = Vec::with_capacity(heap, room).ok()?;
    let used = heap.used();
    let event = Event::Close(FileNo(5));
    let one = Record::new(heap, PassNo(9), event, Reply::Done, taken, given).ok()?;
    if one.taken() == frames {
        Some(heap.used().saturating_sub(used))
    } else {
        None
    }
}

// Whether that are none, and all that was used before is used then.
fn takes_and_leaves_none(alloc: Global, frames: &[FrameNo], room: usize) -> bool {
    match LocalHeap::new(alloc, 1 << 12) {
        Ok(heap) => {
            let used = heap.used();
            taken_by_a_record(&heap, frames, room) == Some(0) && heap.used() == used
        }
        Err(_) => false,
    }
}

#[test]
fn a_record_takes_no_memory_and_gives_back_its_frames(rt: HostRuntime) {
    let frames = &[FrameNo(2), FrameNo(3)];
    assert!(rt; takes_and_leaves_none(rt.alloc(), &[], 0));
    assert!(rt; takes_and_leaves_none(rt.alloc(), frames, 0));
    assert!(rt; takes_and_leaves_none(rt.alloc(), frames, 8));
}
