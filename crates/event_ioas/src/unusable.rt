//! Whether some of several ranges can't be used. Among ranges that rise each span that can't be used is looked up;
//! ranges in any other order are looked up one by one among these spans.

ghost use Rattle.std.specs.Prelude.{◌≡◌, ◌<◌, ◌&&◌, true};
ghost use Rattle.std.specs.List.{list_any};
ghost use Rattle.iofd_rows.specs.Reached as reached;
ghost use Rattle.iofd_words.specs.Allowed.{are_ranges};
ghost use Rattle.iofd_refusals.specs.Checks.{unusable_in};
ghost use Rattle.iofd_words.specs.Files.{device_of};
ghost use Rattle.iofd_words.specs.Ranges.{meets_some};
ghost use Rattle.iofd_words.specs.Span.{meets};
ghost use Rattle.iofd_words.specs.Usable.{interrupt_range, reserved_by, reserved_of};
ghost use Rattle.event_ioas.specs.Rising.{are_rising};
ghost use Rattle.server_state.specs.Held.{objects_in};
ghost use Rattle.server_state.specs.Seen.{seen};
ghost use Rattle.server_state.specs.Step.{IsKnown};

use iofd_words::{
    Attachment, Config, DeviceConfig, DeviceNo, FileNo, INTERRUPT_RANGE, IovaRange, ObjId, Object,
    ObjectKind, Span,
};
use object_table::ObjectTable;
use page_table_set::Hwpt;
use server_state::{Held, State, lookups};
use std::alloc::Allocator;

/// Whether an address of one of the ranges, which rise, can't be used in the address space. It takes no memory.
pub(crate) fn meets_rising<A: Allocator>(
    state: &State<A>,
    file: FileNo,
    ioas: ObjId,
    ranges: &[IovaRange],
) -> bool
    requires known { IsKnown state.now }
    requires rising { are_rising ranges.now ≡ true }
    ensures { result ≡ list_any (meets_some (unusable_in (seen state.now) file ioas)) ranges.now }
{
    some_ends_among(state.page_tables.as_slice(), file, ioas, ranges)
        || some_keeps(
            &state.config,
            &state.objects,
            &state.attachments,
            file,
            ioas,
            ranges,
        )
}

/// Whether a page table over the address space doesn't translate all of the ranges. None reaches further than the last.
fn some_ends_among(tables: &[Hwpt], file: FileNo, ioas: ObjId, ranges: &[IovaRange]) -> bool
    requires { are_rising ranges.now ≡ true }
    ensures { result
        ≡ list_any (λ range. list_any (λ h. reached.ends_in file ioas range h.object) tables.now) ranges.now }
{
    match ranges.last() {
        Some(range) => some_lacks(tables, file, ioas, range.last),
        None => false,
    }
}

/// Whether a page table over the address space doesn't translate the address.
fn some_lacks(tables: &[Hwpt], file: FileNo, ioas: ObjId, address: u64) -> bool
    ensures { result
        ≡ list_any (λ h. reached.ends_in file ioas (record { first = address; last = address }) h.object) tables.now }
{
    tables
        .iter()
        .any(|hwpt| lacks(hwpt.object(), file, ioas, address))
}

/// Whether the object is a page table over the address space that doesn't translate the address.
fn lacks(object: &Object, file: FileNo, ioas: ObjId, address: u64) -> bool
    ensures { result ≡ reached.ends_in file ioas (record { first = address; last = address }) object.now }
{
    object.file == file && is_short_of(object.kind, ioas, address)
}

/// Whether it is a page table over the address space that doesn't translate the address.
fn is_short_of(kind: ObjectKind, ioas: ObjId, address: u64) -> bool
    ensures { result ≡ reached.ends_in_kind ioas (record { first = address; last = address }) kind }
{
    match kind {
        ObjectKind::Hwpt {
            ioas: over,
            width,
            ..
        } => over == ioas && width.end() <= address,
        _ => false,
    }
}

/// Whether a device attached to the address space keeps some of the ranges for itself.
fn some_keeps<A: Allocator>(
    config: &Config<A>,
    table: &ObjectTable<Held<A>, A>,
    attachments: &[Attachment],
    file: FileNo,
    ioas: ObjId,
    ranges: &[IovaRange],
) -> bool
    requires { are_rising ranges.now ≡ true }
    ensures { result ≡ list_any (λ a. list_any (λ range.
        reached.keeps_of config.now (objects_in table.now) file ioas range a) ranges.now) attachments.now }
{
    let mut rest = attachments;
    while let Some((attachment, others)) = rest.split_first() {
        if keeps(config, table, file, ioas, ranges, attachment) {
            return true;
        }
        rest = others;
    }
    false
}

/// Whether the attachment is to the address space, and its device keeps some of the ranges for itself.
fn keeps<A: Allocator>(
    config: &Config<A>,
    table: &ObjectTable<Held<A>, A>,
    file: FileNo,
    ioas: ObjId,
    ranges: &[IovaRange],
    attachment: &Attachment,
) -> bool
    requires { are_rising ranges.now ≡ true }
    ensures { result ≡ list_any (λ range.
        reached.keeps_of config.now (objects_in table.now) file ioas range attachment.now) ranges.now }
{
    lookups::is_attached_to(table, file, ioas, attachment)
        && device_keeps(config, attachment.device, ranges)
}

/// Whether the device keeps some of the ranges for itself.
fn device_keeps<A: Allocator>(config: &Config<A>, device: DeviceNo, ranges: &[IovaRange]) -> bool
    requires { are_rising ranges.now ≡ true }
    ensures { result ≡ list_any (meets_some (reserved_of (device_of config.now device))) ranges.now }
{
    match config.device(device) {
        Some(settings) => settings_keep(settings, ranges),
        None => false,
    }
}

/// Whether a device of these settings does: its interrupt range or a reserved span meets one of them.
fn settings_keep<A: Allocator>(device: &DeviceConfig<A>, ranges: &[IovaRange]) -> bool
    requires { are_rising ranges.now ≡ true }
    ensures { result ≡ list_any (meets_some (reserved_by device.now)) ranges.now }
{
    interrupts_meet(device, ranges) || some_meets(device.reserved(), ranges)
}

/// Whether it has an interrupt range, and this meets one of the ranges.
fn interrupts_meet<A: Allocator>(device: &DeviceConfig<A>, ranges: &[IovaRange]) -> bool
    requires { are_rising ranges.now ≡ true }
    ensures { result ≡ (device.now.x86 && list_any (λ range. meets interrupt_range range) ranges.now) }
{
    device.is_x86() && meets_one(INTERRUPT_RANGE, ranges)
}

/// Whether one of the spans meets one of the ranges, which rise.
fn some_meets(spans: &[Span], ranges: &[IovaRange]) -> bool
    requires { are_rising ranges.now ≡ true }
    ensures { result ≡ list_any (λ span. list_any (λ range. meets span range) ranges.now) spans.now }
{
    let mut rest = spans;
    while let Some((span, others)) = rest.split_first() {
        if meets_one(*span, ranges) {
            return true;
        }
        rest = others;
    }
    false
}

/// Whether the span meets one of the ranges, which rise: the first that doesn't end below it.
fn meets_one(span: Span, ranges: &[IovaRange]) -> bool
    requires { are_rising ranges.now ≡ true }
    ensures { result ≡ list_any (λ range. meets span range) ranges.now }
{
    let at = ranges.partition_point(|range| range.last < span.first());
    match ranges.get(at) {
        Some(range) => range.start <= span.last(),
        None => false,
    }
}

/// Whether an address of one of the ranges, which stand in any order, can't be used in the address space.
pub(crate) fn meets_given<A: Allocator>(
    state: &State<A>,
    file: FileNo,
    ioas: ObjId,
    ranges: &[IovaRange],
) -> bool
    requires known { IsKnown state.now }
    requires ranges { are_ranges ranges.now ≡ true }
    ensures { result ≡ list_any (meets_some (unusable_in (seen state.now) file ioas)) ranges.now }
{
    let mut rest = ranges;
    while let Some((range, others)) = rest.split_first() {
        if meets_range(state, file, ioas, *range) {
            return true;
        }
        rest = others;
    }
    false
}

/// Whether an address of the range can't be used.
fn meets_range<A: Allocator>(state: &State<A>, file: FileNo, ioas: ObjId, range: IovaRange) -> bool
    requires known { IsKnown state.now }
    requires some { range.first < range.last }
    ensures { result ≡ meets_some (unusable_in (seen state.now) file ioas) range }
{
    match Span::new(range.start, range.last) {
        Some(span) => meets_span(state, file, ioas, span),
        None => false,
    }
}

/// Whether an address of the span can't be used.
fn meets_span<A: Allocator>(state: &State<A>, file: FileNo, ioas: ObjId, span: Span) -> bool
    requires { IsKnown state.now }
    ensures { result ≡ meets_some (unusable_in (seen state.now) file ioas) span }
{
    state.unusable_meeting(file, ioas, span).is_some()
}
