//! Spans of an address space at which nothing can be mapped, gathered once for all that is asked of them.

ghost use Rattle.std.specs.Prelude.{◌≡◌, ◌++◌, IfOk, map};
ghost use Rattle.iofd_words.specs.Areas.{areas_of};
ghost use Rattle.iofd_words.specs.Files.{device_of};
ghost use Rattle.iofd_words.specs.Ranges.{meets_some};
ghost use Rattle.iofd_words.specs.Usable.{beyond, beyond_tables, occupied, reserved_in, reserved_of, unusable};

use iofd_words::{
    Area, Attachment, Config, DeviceNo, FileNo, INTERRUPT_RANGE, NoMemory, ObjId, Object,
    ObjectKind, Span, Width,
};
use journal_audit_maps::asked::Asked;
use journal_audit_world::World;
use journal_audit_world::areas::is_of;
use journal_audit_world::attachments::is_attached_to;
use journal_audit_world::objects::is_hwpt_over;
use std::alloc::Allocator;

// The addresses that tables of this width don't translate.
fn beyond(width: Width) -> Span
    ensures { result ≡ beyond width }
{
    let Some(span) = Span::new(width.end(), u64::MAX) else {
        // They begin below 2^64.
        unreachable!()
    };
    span
}

// Those of the page tables of the address space are added.
fn push_beyond<A: Allocator>(
    spans: &mut Vec<Span, A>,
    objects: &[Object],
    file: FileNo,
    ioas: ObjId,
) -> Result<(), NoMemory>
    ensures { IfOk result (λ _. spans.new.items ≡ spans.old.items ++ beyond_tables objects.now file ioas) }
{
    for object in objects {
        if object.file.0 == file.0 && is_hwpt_over(ioas, object.kind) {
            if let ObjectKind::Hwpt { width, .. } = object.kind {
                spans.push(beyond(width))?;
            }
        }
    }
    Ok(())
}

// The spans that the device keeps for itself are added.
fn push_reserved<A: Allocator, B: Allocator>(
    spans: &mut Vec<Span, A>,
    config: &Config<B>,
    device: DeviceNo,
) -> Result<(), NoMemory>
    ensures { IfOk result (λ _. spans.new.items ≡ spans.old.items ++ reserved_of (device_of config.now device)) }
{
    let Some(device) = config.device(device) else {
        return Ok(());
    };
    if device.is_x86() {
        spans.push(INTERRUPT_RANGE)?;
    }
    spans.extend_from_slice(device.reserved())?;
    Ok(())
}

// Those of the devices that are attached to the address space are added.
fn push_kept<A: Allocator, B: Allocator>(
    spans: &mut Vec<Span, A>,
    config: &Config<B>,
    objects: &[Object],
    attachments: &[Attachment],
    file: FileNo,
    ioas: ObjId,
) -> Result<(), NoMemory>
    ensures { IfOk result (λ _. spans.new.items
        ≡ spans.old.items ++ reserved_in config.now objects.now attachments.now file ioas) }
{
    for attachment in attachments {
        if is_attached_to(objects, file, ioas, *attachment) {
            push_reserved(spans, config, attachment.device)?;
        }
    }
    Ok(())
}

// The spans of the areas of the address space are added.
fn push_areas<A: Allocator>(
    spans: &mut Vec<Span, A>,
    areas: &[Area],
    file: FileNo,
    ioas: ObjId,
) -> Result<(), NoMemory>
    ensures { IfOk result (λ _. spans.new.items
        ≡ spans.old.items ++ map (λ area. area.span) (areas_of areas.now file ioas)) }
{
    for area in areas {
        if is_of(file, ioas, area) {
            spans.push(area.span)?;
        }
    }
    Ok(())
}

/// The spans that the address space can't use. Objects and attachments are gone through once.
pub fn unusable<A: Allocator + Copy>(
    alloc: A,
    world: &World<A>,
    file: FileNo,
    ioas: ObjId,
) -> Result<Vec<Span, A>, NoMemory>
    ensures { let w = world.now in
        IfOk result (λ spans. spans.items ≡ unusable w.settings w.objects w.attachments file ioas) }
{
    let mut spans = Vec::new(alloc);
    push_beyond(&mut spans, &world.objects, file, ioas)?;
    push_kept(
        &mut spans,
        &world.config,
        &world.objects,
        &world.attachments,
        file,
        ioas,
    )?;
    Ok(spans)
}

/// Those, and the spans of its areas.
pub fn taken<A: Allocator + Copy>(
    alloc: A,
    world: &World<A>,
    file: FileNo,
    ioas: ObjId,
) -> Result<Vec<Span, A>, NoMemory>
    ensures { let w = world.now in IfOk result (λ spans. spans.items
        ≡ occupied (unusable w.settings w.objects w.attachments file ioas) (areas_of w.areas file ioas)) }
{
    let mut spans = unusable(alloc, world, file, ioas)?;
    push_areas(&mut spans, &world.areas, file, ioas)?;
    Ok(spans)
}

/// Whether some span has an address in common with this one.
pub fn meets_some(spans: &[Span], span: Span) -> bool
    ensures { result ≡ meets_some spans.now span }
{
    for one in spans {
        if one.meets(span) {
            return true;
        }
    }
    false
}

/// Whether some span has an address in common with these.
pub fn meet_asked(spans: &[Span], asked: Asked) -> bool
    ensures { result ≡ meets_some spans.now asked }
{
    for one in spans {
        if asked.meets(*one) {
            return true;
        }
    }
    false
}
