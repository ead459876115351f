//! Where the area of a MAP or a COPY comes to lie: what refuses that, which answers are lawful, and the areas with it.

ghost use Rattle.std.specs.Prelude.{◌≡◌, ◌==◌, ◌&&◌, ◌≤◌, ◌∷◌, ◌++◌, false, length, take, drop, IfOk};
ghost use Rattle.iofd_steps.specs.Answers.{IsMappedAt};
ghost use Rattle.iofd_words.specs.Areas.{areas_of, has_no_room, with_area};
ghost use Rattle.iofd_refusals.specs.Checks.{is_outside_usable, lacks_choice, lacks_mapped_frames, mapped_span};
ghost use Rattle.iofd_refusals.specs.Checks.{overlaps};
ghost use Rattle.iofd_words.specs.FirstTrue.{first_true};
ghost use Rattle.iofd_words.specs.Pages.{is_above_sum};
ghost use Rattle.iofd_words.specs.Rights.{is_fixed};
ghost use Rattle.iofd_words.specs.View.{view};
ghost use Rattle.journal_audit.specs.Rows.{place_rows};
ghost use Rattle.journal_audit_world.specs.Decides.{Decides};

use crate::spans;
use crate::starts::{mapped_start, may_choose};
use iofd_words::{Area, Cause, FileNo, Iova, MapRequest, NoMemory, ObjId, PAGE_SIZE};
use journal_audit_maps::asked::{Asked, areas_meet};
use journal_audit_tables::Pages;
use journal_audit_tables::missing::missing_over;
use journal_audit_world::World;
use journal_audit_world::areas::is_of;
use std::alloc::Allocator;

// ---- refusals

// The addresses of a fixed address.
fn asked(request: MapRequest) -> Asked
    ensures { result ≡ mapped_span request }
{
    Asked::from(request.iova.0, request.length)
}

// Whether the addresses are fixed, and some of them can't be used.
fn is_outside_usable<A: Allocator + Copy>(
    alloc: A,
    world: &World<A>,
    file: FileNo,
    request: MapRequest,
) -> Result<bool, NoMemory>
    ensures { IfOk result (λ is. is ≡ is_outside_usable (view world.now) file request) }
{
    if !request.flags.is_fixed() {
        return Ok(false);
    }
    let spans = spans::unusable(alloc, world, file, request.ioas)?;
    Ok(spans::meet_asked(&spans, asked(request)))
}

// Whether they are fixed, and an area has some of them.
fn overlaps<A: Allocator>(world: &World<A>, file: FileNo, request: MapRequest) -> bool
    ensures { result ≡ overlaps (view world.now) file request }
{
    request.flags.is_fixed() && areas_meet(&world.areas, file, request.ioas, asked(request))
}

// Whether the address space has as many areas as it may have.
fn has_no_room(areas: &[Area], file: FileNo, ioas: ObjId) -> bool
    ensures { result ≡ has_no_room (areas_of areas.now file ioas) }
{
    count_of(areas, file, ioas) >= 65535
}

// How many areas it has.
fn count_of(areas: &[Area], file: FileNo, ioas: ObjId) -> usize
    ensures { result ≡ length (areas_of areas.now file ioas) }
{
    let mut count: usize = 0;
    for area in areas {
        if is_of(file, ioas, area) {
            count += 1;
        }
    }
    count
}

// Whether an address is to be chosen, and there is none.
fn lacks_choice<A: Allocator + Copy>(
    alloc: A,
    world: &World<A>,
    file: FileNo,
    request: MapRequest,
) -> Result<bool, NoMemory>
    ensures { IfOk result (λ lacks. lacks ≡ lacks_choice (view world.now) file request) }
{
    let start = mapped_start(alloc, world, file, request)?;
    Ok(start.is_none())
}

/// Why the area can lie nowhere, if it can't: by what can be used, by the areas that there are, by how many.
#[tactic(auto, unfolding(crate::specs::Rows::place_rows))]
pub fn refusal<A: Allocator + Copy>(
    alloc: A,
    world: &World<A>,
    file: FileNo,
    request: MapRequest,
) -> Result<Option<Cause>, NoMemory>
    ensures { IfOk result (λ cause. cause ≡ first_true (place_rows (view world.now) file request)) }
{
    if is_outside_usable(alloc, world, file, request)? {
        return Ok(Some(Cause::Reserved));
    }
    if overlaps(world, file, request) {
        return Ok(Some(Cause::Overlap));
    }
    if has_no_room(&world.areas, file, request.ioas) {
        return Ok(Some(Cause::Full));
    }
    if lacks_choice(alloc, world, file, request)? {
        return Ok(Some(Cause::Full));
    }
    Ok(None)
}

/// Whether fewer frames are free than page tables lack tables to map the area where it comes to lie. The tables are
/// listed, page by page for each page table: it is asked last, when each page is there.
pub fn lacks_frames<A: Allocator + Copy>(
    alloc: A,
    world: &World<A>,
    file: FileNo,
    request: MapRequest,
) -> Result<bool, NoMemory>
    requires some { (request.length == 0) ≡ false }
    requires sum { (is_fixed request.flags && is_above_sum request.iova.0 request.length) ≡ false }
    ensures { IfOk result (λ lacks. lacks ≡ lacks_mapped_frames (view world.now) file request) }
{
    let Some(start) = mapped_start(alloc, world, file, request)? else {
        return Ok(false);
    };
    let pages = Pages {
        first: start / PAGE_SIZE,
        count: request.length / PAGE_SIZE,
    };
    let missing = missing_over(
        alloc,
        &world.table_frames,
        &world.objects,
        file,
        request.ioas,
        pages,
    )?;
    if missing.is_empty() {
        return Ok(false);
    }
    Ok(world.free_count() < missing.len())
}

// ---- answers

/// Whether the area may lie at this address.
pub fn may_lie_at<A: Allocator + Copy>(
    alloc: A,
    world: &World<A>,
    file: FileNo,
    request: MapRequest,
    iova: Iova,
) -> Result<bool, NoMemory>
    ensures { IfOk result (λ may. Decides may (IsMappedAt world.now file request (is_fixed request.flags) iova)) }
{
    if request.flags.is_fixed() {
        return Ok(iova == request.iova);
    }
    may_choose(alloc, world, file, request, iova.0)
}

// ---- the areas with one more

// Before which of them the area stands.
fn place_of(areas: &[Area], area: &Area) -> usize
    ensures within { result ≤ length areas.now }
    ensures placed { take result areas.now ++ area.now ∷ drop result areas.now ≡ with_area area.now areas.now }
{
    for (index, other) in areas.iter().enumerate() {
        if is_of(area.file, area.ioas, other) && area.span.first() < other.span.first() {
            return index;
        }
    }
    areas.len()
}

/// One more area, before the first of its address space that begins after it. Its only error is want of memory.
pub fn add_area<A: Allocator>(areas: &mut Vec<Area, A>, area: Area) -> Result<(), NoMemory>
    ensures { IfOk result (λ _. areas.new.items ≡ with_area area areas.old.items) }
{
    let place = place_of(areas, &area);
    areas.insert(place, area)?;
    Ok(())
}
