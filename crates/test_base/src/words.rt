//! Values that the standards and the table of refusals give, a case of each definition, and a configuration's limits.

use iofd_words::{
    AccessKind, Burst, Cause, Config, ConfigError, DeviceNo, DeviceSet, FaultReason, FrameList,
    FrameNo, MapFlags, Rights, Span, SpanList, UserNo, Width,
};
use std::alloc::Global;

// The first and the last number of a span of this length.
fn ends(first: u64, length: u64) -> Option<(u64, u64)> {
    let span = Span::of_length(first, length)?;
    Some((span.first(), span.last()))
}

// Whether the first span holds its last number and not the next, and meets the second, which doesn't lie in it.
fn hold_and_meet(page: Span, next: Span) -> bool {
    page.is_whole_pages()
        && page.holds(0x1fff)
        && !page.holds(0x2000)
        && page.meets(next)
        && !next.lies_in(page)
}

#[test]
fn a_span_has_a_length_and_ends_within_the_addresses(rt: HostRuntime) {
    assert!(rt; ends(u64::MAX, 1) == Some((u64::MAX, u64::MAX)));
    assert!(rt; ends(u64::MAX, 2).is_none() && Span::new(1, 0).is_none());
}

#[test]
fn spans_hold_and_meet(rt: HostRuntime) {
    let are_so = match (Span::new(0x1000, 0x1fff), Span::new(0x1fff, 0x2000)) {
        (Some(page), Some(next)) => hold_and_meet(page, next),
        _ => false,
    };
    assert!(rt; are_so);
}

// Whether an access may have these bytes and then has them.
fn is_burst(bytes: &[u8]) -> bool {
    match Burst::new(bytes) {
        Some(burst) => burst.as_slice() == bytes,
        None => false,
    }
}

#[test]
fn a_burst_has_at_most_64_bytes(rt: HostRuntime) {
    assert!(rt; is_burst(&[7; 64]) && !is_burst(&[7; 65]));
}

// FIXED_IOVA 1, WRITEABLE 2, READABLE 4; a table entry has bit 0 for reads, bit 1 for writes.
fn are_flags() -> bool {
    let (fixed, writeable, readable) = (MapFlags(1), MapFlags(2), MapFlags(4));
    fixed.is_fixed()
        && writeable.is_writeable()
        && readable.is_readable()
        && !writeable.is_fixed()
        && !readable.is_writeable()
        && !fixed.is_readable()
        && writeable.rights() == Rights(2)
        && MapFlags(5).rights() == Rights(1)
}

fn are_rights() -> bool {
    Rights(1).allow(AccessKind::Read)
        && !Rights(1).allow(AccessKind::Write)
        && Rights::WRITE.allow(AccessKind::Write)
        && !Rights::WRITE.allow(AccessKind::Read)
}

fn are_widths() -> bool {
    Width::Bits39.bits() == 39
        && Width::Bits39.end() == 0x80_0000_0000
        && Width::Bits48.bits() == 48
        && Width::Bits48.end() == 0x1_0000_0000_0000
        && Width::Bits57.bits() == 57
        && Width::Bits57.end() == 0x200_0000_0000_0000
}

fn are_reasons() -> bool {
    FaultReason::NoContext.number() == 2
        && FaultReason::BeyondWidth.number() == 4
        && AccessKind::Write.denied().number() == 5
        && AccessKind::Read.denied().number() == 6
}

#[test]
fn flags_rights_widths_and_reasons_of_faults(rt: HostRuntime) {
    assert!(rt; are_flags() && are_rights() && are_widths() && are_reasons());
}

static REFUSALS: [(Cause, u8, u8); 14] = [
    (Cause::Number, 1, 25),
    (Cause::Tail, 3, 7),
    (Cause::Unsupported, 4, 95),
    (Cause::Frames, 6, 12),
    (Cause::Absent, 8, 14),
    (Cause::Overlap, 9, 17),
    (Cause::Id, 11, 2),
    (Cause::Narrow, 15, 98),
    (Cause::Rights, 16, 1),
    (Cause::Sum, 19, 75),
    (Cause::Full, 23, 28),
    (Cause::Places, 25, 90),
    (Cause::Pending, 29, 16),
    (Cause::Tracking, 30, 22),
];

#[test]
fn refusals(rt: HostRuntime) {
    for (cause, number, errno) in &REFUSALS {
        let numbers = (cause.number(), cause.errno().number());
        assert!(rt; numbers == (*number, *errno), "refusal {number}");
    }
}

// The first and the last devices of words of the set, but for one that is taken away again.
fn outermost() -> DeviceSet {
    let mut devices = DeviceSet::new();
    for number in [1, 64, 65, 256] {
        devices.insert(DeviceNo(number));
    }
    devices.remove(DeviceNo(64));
    devices.copied()
}

// Whether those and no others are in it.
fn has_outermost(devices: &DeviceSet) -> bool {
    devices.contains(DeviceNo(1))
        && !devices.contains(DeviceNo(2))
        && !devices.contains(DeviceNo(64))
        && devices.contains(DeviceNo(65))
        && devices.contains(DeviceNo(256))
        && !devices.is_empty()
        && DeviceSet::new().is_empty()
}

#[test]
fn a_set_has_the_devices_put_in_and_not_taken_away(rt: HostRuntime) {
    assert!(rt; has_outermost(&outermost()));
}

static OUTSIDE: [((u32, u16, u16), ConfigError); 4] = [
    ((0, 1, 1), ConfigError::Pool),
    ((4097, 2, 1025), ConfigError::Pool),
    ((4096, 2, 1025), ConfigError::Files),
    ((4096, 1, 1025), ConfigError::Passes),
];

// The part that is outside its limits, of a configuration of this pool, one user with a file of this one, no device and
// so many passes.
fn outside(alloc: Global, (pool, user, passes): (u32, u16, u16)) -> Option<ConfigError> {
    match ([4].to_vec(alloc), [UserNo(user)].to_vec(alloc)) {
        (Ok(users), Ok(files)) => Config::new(pool, users, files, Vec::new(alloc), passes).err(),
        _ => None,
    }
}

#[test]
fn a_field_outside_its_limits_is_told(rt: HostRuntime) {
    for (given, error) in &OUTSIDE {
        assert!(rt; outside(rt.alloc(), *given) == Some(*error));
    }
}

// Whether a list of frames gives them in order.
fn lists_frames(alloc: Global, given: &[FrameNo]) -> bool {
    match given.to_vec(alloc) {
        Ok(frames) => {
            let list = FrameList::new(frames);
            let has = list.as_slice() == given;
            has & (list.into_vec().as_slice() == given)
        }
        Err(_) => false,
    }
}

// Whether a list of spans gives this one.
fn lists_span(alloc: Global, span: Span) -> bool {
    match [span].to_vec(alloc) {
        Ok(spans) => SpanList::new(spans).into_vec().as_slice() == [span].as_slice(),
        Err(_) => false,
    }
}

#[test]
fn lists_give_frames_and_spans_in_order(rt: HostRuntime) {
    let is_listed = match Span::new(0x1000, 0x1fff) {
        Some(span) => lists_span(rt.alloc(), span),
        None => false,
    };
    assert!(rt; is_listed && lists_frames(rt.alloc(), &[FrameNo(2), FrameNo(3)]));
}
