//! The pages that the first page table of an address space pins.

ghost use Rattle.std.specs.Prelude.{◌≡◌, ◌≤◌, ◌++◌, ◌^◌, ◌∷◌, [], true, false, IfOk, MatchOption};
ghost use Rattle.std.specs.Prelude.{if◌then◌else◌};
ghost use Rattle.std.specs.List.{list_all};
ghost use Rattle.iofd_rows.specs.Pinned.{have_own_numbers};
ghost use Rattle.iofd_steps.specs.After.{settle};
ghost use Rattle.iofd_refusals.specs.Checks.{lacks_attached_page, newly_pinned, passes_limit_attached};
ghost use Rattle.iofd_words.specs.FirstTrue.{first_true};
ghost use Rattle.iofd_words.specs.Objects.{is_fresh};
ghost use Rattle.iofd_words.specs.Pins.{are_present, pages_of};
ghost use Rattle.iofd_words.specs.View.{view};
ghost use Rattle.journal_audit_maps.specs.Newly.{Gathers};
ghost use Rattle.journal_audit_page_tables.specs.PageSets.{frame_in};
ghost use Rattle.journal_audit_page_tables.specs.Listed.{Listed, has_few_pages, now_in, own_frame, unpinned};
ghost use Rattle.journal_audit_page_tables.specs.Listed.{unpinned_over};
ghost use Rattle.journal_audit_page_tables.specs.Pinning.{first_pins, with_table};
ghost use Rattle.journal_audit_world.specs.Kept.{IsKept};
ghost use Rattle.journal_audit_world.specs.Unwritten.{unwritten};

use crate::listing::list_pages;
use crate::page_sets::{frames_by_page, pinned_pages};
use iofd_words::{
    Cause, FileNo, FrameNo, MemoryObject, NoMemory, ObjId, Object, ObjectKind, Pin, Width,
};
use journal_audit_maps::accounts::passes_limit;
use journal_audit_world::{Numbers, World, objects, over};
use std::alloc::Allocator;
use std::collections::{BTreeMap, BTreeSet};

// ---- which they are

// The pages of one memory object more, if it is asked for.
fn list_object<A: Allocator>(
    pins: &mut Vec<Pin, A>,
    pinned: &BTreeSet<(u64, u64), A>,
    frames: &BTreeMap<(u16, u64), FrameNo, A>,
    object: MemoryObject,
    is_asked: bool,
) -> Result<bool, NoMemory>
    requires { object.count ≤ 2 ^ 52 }
    ensures { IfOk result (λ whole. Listed (own_frame (frame_in frames.now) object) pins.old.items pins.new.items whole
        (if is_asked then unpinned pinned.now.keys (pages_of object) else [])) }
{
    if !is_asked {
        return Ok(true);
    }
    list_pages(pins, pinned, frames, object)
}

// Those of all memory objects with these numbers; None where one isn't in its user's memory.
fn list_objects<A: Allocator + Copy>(
    alloc: A,
    memory: &[MemoryObject],
    numbers: &Numbers<A>,
    pinned: &BTreeSet<(u64, u64), A>,
    frames: &BTreeMap<(u16, u64), FrameNo, A>,
) -> Result<Option<Vec<Pin, A>>, NoMemory>
    requires own { have_own_numbers memory.now ≡ true }
    requires few { list_all has_few_pages memory.now ≡ true }
    ensures { let now = now_in (frame_in frames.now) memory.now in
        let pages = unpinned_over numbers.now pinned.now.keys memory.now in
        IfOk result (λ all. MatchOption all (are_present now pages ≡ false)
        (λ pins. Listed now [] pins.items true pages)) }
{
    let mut pins = Vec::new(alloc);
    for object in memory {
        let is_asked = numbers.has(object.number);
        if !list_object(&mut pins, pinned, frames, *object, is_asked)? {
            return Ok(None);
        }
    }
    Ok(Some(pins))
}

/// The pins of the pages that the first page table of an address space pins anew; None where one isn't in its user's
/// memory. Areas, pins and users' pages are gone through once, and the list is no longer than what is there or pinned.
pub fn newly_pinned<A: Allocator + Copy>(
    alloc: A,
    at: u64,
    world: &World<A>,
    file: FileNo,
    ioas: ObjId,
) -> Result<Option<Vec<Pin, A>>, NoMemory>
    requires kept { IsKept at world.now }
    ensures { let w = world.now in let pages = newly_pinned (view w) file ioas in
        IfOk result (λ all. MatchOption all (Gathers false w.memory w.user_pages pages [] [])
        (λ pins. Gathers true w.memory w.user_pages pages [] pins.items)) }
{
    let mut numbers = Numbers::new(alloc);
    over::add_under(&mut numbers, &world.areas, file, ioas)?;
    let pinned = pinned_pages(alloc, &world.pins)?;
    let frames = frames_by_page(alloc, &world.user_pages)?;
    list_objects(alloc, &world.memory, &numbers, &pinned, &frames)
}

// ---- what they refuse

/// Why a page table over the address space is refused by its pages, if it is: it is the first one, and one of them
/// isn't in its user's memory, or with them the user would have more pinned pages than its limit allows.
pub fn refusal_by_pages<A: Allocator + Copy>(
    alloc: A,
    at: u64,
    world: &World<A>,
    file: FileNo,
    ioas: ObjId,
) -> Result<Option<Cause>, NoMemory>
    requires kept { IsKept at world.now }
    ensures { IfOk result (λ cause. cause ≡ first_true (
        (Cause.Absent, lacks_attached_page (view world.now) file ioas)
        ∷ (Cause.Account, passes_limit_attached (view world.now) file ioas)
        ∷ [])) }
{
    if objects::has_hwpt(&world.objects, file, ioas) {
        return Ok(None);
    }
    let Some(pins) = newly_pinned(alloc, at, world, file, ioas)? else {
        return Ok(Some(Cause::Absent));
    };
    if passes_limit(at, world, file, pins.len()) {
        return Ok(Some(Cause::Account));
    }
    Ok(None)
}

// ---- what comes of them

// They are pinned, where it is the first page table.
fn pin_first<A: Allocator + Copy>(
    alloc: A,
    at: u64,
    world: &mut World<A>,
    file: FileNo,
    ioas: ObjId,
) -> Result<(), NoMemory>
    requires kept { IsKept at world.old }
    requires present { lacks_attached_page (view world.old) file ioas ≡ false }
    ensures { let w = world.old in
        IfOk result (λ _. world.new ≡ record w { pins = w.pins ++ first_pins w file ioas }) }
{
    if objects::has_hwpt(&world.objects, file, ioas) {
        return Ok(());
    }
    let Some(pins) = newly_pinned(alloc, at, world, file, ioas)? else {
        // They are there.
        unreachable!()
    };
    world.pins.extend_from_slice(&pins)?;
    Ok(())
}

/// A page table comes over the address space at this position, and its pages are pinned. Its only error is want of
/// memory.
pub fn add_page_table<A: Allocator + Copy>(
    alloc: A,
    at: u64,
    world: &mut World<A>,
    file: FileNo,
    ioas: ObjId,
    id: ObjId,
    width: Width,
    automatic: bool,
) -> Result<(), NoMemory>
    requires kept { IsKept at world.old }
    requires present { lacks_attached_page (view world.old) file ioas ≡ false }
    requires fresh { is_fresh world.old.objects file id ≡ true }
    ensures { let w = world.old in
        IfOk result (λ _. unwritten world.new ≡ unwritten (settle w (with_table w file ioas id width automatic))) }
{
    pin_first(alloc, at, world, file, ioas)?;
    let kind = ObjectKind::Hwpt {
        ioas,
        width,
        automatic,
    };
    objects::add(&mut world.objects, Object { file, id, kind })
}
