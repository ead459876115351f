//! The question for an access object's notices: what it has pinned is leaving, and its driver is asked to let go.

ghost use Rattle.std.specs.Prelude.{◌≡◌, ◌<◌, ◌&&◌, not, map, filter, length, IfOk, OnErr};
ghost use Rattle.held_pins.specs.HeldPins.{are_own_met};
ghost use Rattle.iofd_words.specs.Accesses.{notices};
ghost use Rattle.iofd_words.specs.FirstTrue.{first_true};
ghost use Rattle.iofd_steps.specs.Look.{notices_checks};
ghost use Rattle.iofd_words.specs.TablePlaces.{is_live};
ghost use Rattle.server_state.specs.Seen.{seen};

use area_map::Areas;
use held_pins::HeldPins;
use iofd_words::{Area, Cause, FileNo, NoMemory, ObjId, ObjectKind, Phase, Span};
use server_state::{State, lookups};
use std::alloc::Allocator;

/// Why the question is refused: by 11 (ENOENT, `Cause::Id`) where the file isn't open or has no access object of this
/// id. It takes no memory.
pub fn refusal<A: Allocator>(state: &State<A>, file: FileNo, access: ObjId) -> Option<Cause>
    ensures { result ≡ first_true (notices_checks (seen state.now) file access) }
{
    if !state.objects.is_open(file) {
        return Some(Cause::Id);
    }
    match lookups::kind_of(&state.objects, file, access) {
        Some(ObjectKind::Access { .. }) => None,
        _ => Some(Cause::Id),
    }
}

/// The spans of the leaving areas in which the access object holds a pin, by rising start. Where some area of its
/// address space is leaving it goes over all areas there. It fails only where memory does, and then there are some.
pub fn notices<A: Allocator, B: Allocator>(
    alloc: B,
    state: &State<A>,
    file: FileNo,
    access: ObjId,
) -> Result<Vec<Span, B>, NoMemory>
    ensures spans { IfOk result (λ spans. spans.items ≡ notices (seen state.now) file access) }
    ensures memory { OnErr result (0 < length (notices (seen state.now) file access)) }
{
    let Some(ObjectKind::Access { ioas: Some(ioas) }) = lookups::kind_of(
        &state.objects,
        file,
        access,
    ) else {
        return Ok(Vec::new(alloc));
    };
    match lookups::areas_of(&state.objects, file, ioas) {
        Some(areas) => spans_among(alloc, areas, &state.access_pins, file, access),
        None => Ok(Vec::new(alloc)),
    }
}

/// The spans of those of these areas that are leaving, and that a pin of the access object meets.
fn spans_among<A: Allocator, B: Allocator>(
    alloc: B,
    areas: &Areas<A>,
    pins: &HeldPins<A>,
    file: FileNo,
    access: ObjId,
) -> Result<Vec<Span, B>, NoMemory>
    ensures spans { IfOk result (λ spans. spans.items ≡ map (λ area. area.span)
        (filter (λ area. not (is_live area.phase) && are_own_met pins.now file access area.span) areas.now.areas)) }
    ensures memory { OnErr result (0 < length
        (filter (λ area. not (is_live area.phase) && are_own_met pins.now file access area.span) areas.now.areas)) }
{
    let mut spans = Vec::new(alloc);
    if !areas.has_leaving() {
        return Ok(spans);
    }
    for area in areas.iter() {
        if is_noticed(area, pins, file, access) {
            spans.push(area.span)?;
        }
    }
    Ok(spans)
}

/// Whether the area is leaving, and a pin of the access object meets it.
fn is_noticed<A: Allocator>(area: &Area, pins: &HeldPins<A>, file: FileNo, access: ObjId) -> bool
    ensures { result ≡ (not (is_live area.now.phase) && are_own_met pins.now file access area.now.span) }
{
    match area.phase {
        Phase::Live => false,
        Phase::Leaving { .. } => pins.access_meets(file, access, area.span),
    }
}
