//! Whether a device would narrow an address space below what is mapped in it, or what it allows.

ghost use Rattle.std.specs.Prelude.{◌≡◌, ◌&&◌, ◌||◌, false};
ghost use Rattle.std.specs.List.{list_any};
ghost use Rattle.hwpt_device.specs.Narrow.{is_narrowed};
ghost use Rattle.iofd_words.specs.Allowed.{allowed_of};
ghost use Rattle.iofd_words.specs.Areas.{areas_meet};
ghost use Rattle.iofd_refusals.specs.Checks.{narrows, narrows_by_width};
ghost use Rattle.iofd_words.specs.Files.{device_of};
ghost use Rattle.iofd_words.specs.Ranges.{meets_some};
ghost use Rattle.iofd_words.specs.Span.{meets};
ghost use Rattle.iofd_words.specs.Usable.{beyond, interrupt_range, reserved_by};
ghost use Rattle.server_state.specs.Held.{areas_at};
ghost use Rattle.server_state.specs.Seen.{seen};
ghost use Rattle.server_state.specs.Step.{IsKnown};

use area_map::Areas;
use iofd_words::{DeviceConfig, DeviceNo, FileNo, INTERRUPT_RANGE, IovaRange, ObjId, Span, Width};
use iova_ranges::AllowedTable;
use object_table::ObjectTable;
use server_state::{Held, State, lookups};
use std::alloc::Allocator;

/// Whether with the device attached an area or an allowed range of the address space would lie outside what can be
/// used. What other devices and page tables leave out none of them meets as it is.
pub(crate) fn narrows<A: Allocator>(
    state: &State<A>,
    device: DeviceNo,
    file: FileNo,
    ioas: ObjId,
) -> bool
    requires { IsKnown state.now }
    ensures { result ≡ narrows (seen state.now) file ioas (device_of state.now.config device) }
{
    let Some(settings) = state.config.device(device) else {
        return false;
    };
    narrows_areas(settings, &state.objects, file, ioas)
        || narrows_allowed(settings, &state.allowed, file, ioas)
}

/// Whether with a page table of the device's width an area or an allowed range of the address space would lie outside
/// what can be used.
pub(crate) fn narrows_by_width<A: Allocator>(
    state: &State<A>,
    device: DeviceNo,
    file: FileNo,
    ioas: ObjId,
) -> bool
    requires { IsKnown state.now }
    ensures { result ≡ narrows_by_width (seen state.now) file ioas (device_of state.now.config device) }
{
    let Some(settings) = state.config.device(device) else {
        return false;
    };
    let width = settings.width();
    area_reaches_beyond(width, &state.objects, file, ioas)
        || range_reaches_beyond(width, &state.allowed, file, ioas)
}

/// Whether tables of this width don't translate all of an area of the address space.
fn area_reaches_beyond<A: Allocator>(
    width: Width,
    table: &ObjectTable<Held<A>, A>,
    file: FileNo,
    ioas: ObjId,
) -> bool
    ensures { result ≡ list_any (λ area. meets (beyond width) area.span) (areas_at table.now.rows file ioas) }
{
    match lookups::areas_of(table, file, ioas) {
        Some(areas) => reach_beyond(width, areas),
        None => false,
    }
}

/// Whether they don't translate all of some area.
fn reach_beyond<A: Allocator>(width: Width, areas: &Areas<A>) -> bool
    ensures { result ≡ list_any (λ area. meets (beyond width) area.span) areas.now.areas }
{
    areas.meets(beyond(width))
}

/// The addresses that they don't translate.
fn beyond(width: Width) -> Span
    ensures { result ≡ beyond width }
{
    match Span::new(width.end(), u64::MAX) {
        Some(span) => span,
        // Addresses have fewer than 64 bits.
        None => unreachable!(),
    }
}

/// Whether they don't translate all of a range that the address space allows.
fn range_reaches_beyond<A: Allocator>(
    width: Width,
    allowed: &AllowedTable<A>,
    file: FileNo,
    ioas: ObjId,
) -> bool
    ensures { result ≡ list_any (meets (beyond width)) (allowed_of allowed.now.rows file ioas) }
{
    match allowed.of(file, ioas) {
        Some(row) => some_beyond(width, row.ranges()),
        None => false,
    }
}

/// Whether they don't translate all of some range.
fn some_beyond(width: Width, ranges: &[IovaRange]) -> bool
    ensures { result ≡ list_any (meets (beyond width)) ranges.now }
{
    ranges.iter().any(|range| is_beyond(width, *range))
}

/// Whether they don't translate all of the range.
fn is_beyond(width: Width, range: IovaRange) -> bool
    ensures { result ≡ meets (beyond width) range }
{
    width.end() <= range.last
}

/// Whether the device leaves out some of an area of the address space.
fn narrows_areas<A: Allocator>(
    settings: &DeviceConfig<A>,
    table: &ObjectTable<Held<A>, A>,
    file: FileNo,
    ioas: ObjId,
) -> bool
    ensures { result ≡ list_any (λ area. is_narrowed settings.now area.span) (areas_at table.now.rows file ioas) }
{
    match lookups::areas_of(table, file, ioas) {
        Some(areas) => some_area_narrowed(settings, areas),
        None => false,
    }
}

/// Whether the device doesn't translate some area, or keeps some of it for itself. It looks the areas up by each span
/// that the device leaves out.
fn some_area_narrowed<A: Allocator>(settings: &DeviceConfig<A>, areas: &Areas<A>) -> bool
    ensures { result ≡ list_any (λ area. is_narrowed settings.now area.span) areas.now.areas }
{
    reach_beyond(settings.width(), areas) || keeps_some_area(settings, areas)
}

/// Whether the device keeps some of an area for itself.
fn keeps_some_area<A: Allocator>(settings: &DeviceConfig<A>, areas: &Areas<A>) -> bool
    ensures { result ≡ list_any (λ area. meets_some (reserved_by settings.now) area.span) areas.now.areas }
{
    has_interrupts_in(settings, areas) || meet_some_area(settings.reserved(), areas)
}

/// Whether its interrupt range, which an x86 device has, meets an area.
fn has_interrupts_in<A: Allocator>(settings: &DeviceConfig<A>, areas: &Areas<A>) -> bool
    ensures { result ≡ (settings.now.x86 && areas_meet interrupt_range areas.now.areas) }
{
    settings.is_x86() && areas.meets(INTERRUPT_RANGE)
}

/// Whether one of the spans meets an area.
fn meet_some_area<A: Allocator>(spans: &[Span], areas: &Areas<A>) -> bool
    ensures { result ≡ list_any (λ span. areas_meet span areas.now.areas) spans.now }
{
    spans.iter().any(|span| areas.meets(*span))
}

/// Whether the device leaves out some of a range that the address space allows.
fn narrows_allowed<A: Allocator>(
    settings: &DeviceConfig<A>,
    allowed: &AllowedTable<A>,
    file: FileNo,
    ioas: ObjId,
) -> bool
    ensures { result ≡ list_any (is_narrowed settings.now) (allowed_of allowed.now.rows file ioas) }
{
    match allowed.of(file, ioas) {
        Some(row) => some_range_narrowed(settings, row.ranges()),
        None => false,
    }
}

/// Whether the device doesn't translate some range, or keeps some of it for itself.
fn some_range_narrowed<A: Allocator>(settings: &DeviceConfig<A>, ranges: &[IovaRange]) -> bool
    ensures { result ≡ list_any (is_narrowed settings.now) ranges.now }
{
    ranges
        .iter()
        .any(|range| is_range_narrowed(settings, *range))
}

/// Whether the device doesn't translate all of the range, or keeps some of it for itself.
fn is_range_narrowed<A: Allocator>(settings: &DeviceConfig<A>, range: IovaRange) -> bool
    ensures { result ≡ is_narrowed settings.now range }
{
    settings.width().end() <= range.last || keeps_some(settings, range)
}

/// Whether the device keeps some of the range for itself.
fn keeps_some<A: Allocator>(settings: &DeviceConfig<A>, range: IovaRange) -> bool
    ensures { result ≡ meets_some (reserved_by settings.now) range }
{
    if settings.is_x86() && meets(INTERRUPT_RANGE, range) {
        return true;
    }
    reserves_some(settings.reserved(), range)
}

/// Whether one of the spans meets the range.
fn reserves_some(spans: &[Span], range: IovaRange) -> bool
    ensures { result ≡ meets_some spans.now range }
{
    spans.iter().any(|span| meets(*span, range))
}

/// Whether the span and the range meet. It looks at their ends alone: a range may begin above its last address.
fn meets(span: Span, range: IovaRange) -> bool
    ensures { result ≡ meets span range }
{
    span.first() <= range.last && range.start <= span.last()
}
