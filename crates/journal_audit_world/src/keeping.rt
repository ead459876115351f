//! What stays of memory objects and of pins where areas, page tables or access pins go. The rows of objects that are
//! not asked for stay, so only those that are asked for are looked at.

ghost use Rattle.std.specs.Prelude.{◌≡◌, ◌==◌, ◌&&◌, ◌||◌, ℕ, true, not, filter, map, IfOk};
ghost use Rattle.std.specs.List.{list_all, list_any};
ghost use Rattle.iofd_words.specs.Areas.{with_phase};
ghost use Rattle.iofd_words.specs.Objects.{has_hwpt, is_hwpt_over};
ghost use Rattle.iofd_words.specs.Pins.{is_accessed, is_pinned, page_of_pin};
ghost use Rattle.iofd_words.specs.declared.numbers.FileNo.{FileNo};
ghost use Rattle.iofd_words.specs.declared.numbers.ObjId.{ObjId};
ghost use Rattle.iofd_words.specs.declared.rows.Phase.TheVariants as phase;
ghost use Rattle.journal_audit_world.specs.Keys.{has_number, has_pair};
ghost use Rattle.journal_audit_world.specs.Over.{is_over};

use crate::numbers::Numbers;
use crate::over::used_of;
use crate::pairs::Pairs;
use crate::pins::is_accessed;
use iofd_words::{AccessPin, Area, MemoryObject, NoMemory, Object, ObjectKind, Phase, Pin};
use std::alloc::Allocator;

/// The memory objects that no area is over any more go. Areas are gone through once, and memory objects once. Its only
/// error is want of memory.
pub fn keep_used<A: Allocator + Copy>(
    alloc: A,
    memory: &mut Vec<MemoryObject, A>,
    areas: &[Area],
    asked: &Numbers<A>,
) -> Result<(), NoMemory>
    requires { list_all (λ m. has_number asked.now m.number || list_any (λ area. area.memory == m.number) areas.now)
        memory.old.items ≡ true }
    ensures { IfOk result (λ _. memory.new.items
        ≡ filter (λ m. list_any (λ area. area.memory == m.number) areas.now) memory.old.items) }
{
    let used = used_of(alloc, areas, asked)?;
    memory.retain(|object| !asked.has(object.number) || used.has(object.number));
    Ok(())
}

// ---- page tables

// The address space of a page table too.
fn add_space<A: Allocator + Copy>(spaces: &mut Pairs<A>, object: Object) -> Result<(), NoMemory>
    ensures { IfOk result (λ _. (file : FileNo) (ioas : ObjId) → has_pair spaces.new file.0 ioas.0
        ≡ (has_pair spaces.old file.0 ioas.0 || (object.file.0 == file.0 && is_hwpt_over ioas object.kind))) }
{
    match object.kind {
        ObjectKind::Hwpt { ioas, .. } => {
            spaces.add_if(u64::from(object.file.0), u64::from(ioas.0), true)
        }
        _ => Ok(()),
    }
}

// The address spaces that have a page table.
fn spaces_of<A: Allocator + Copy>(alloc: A, objects: &[Object]) -> Result<Pairs<A>, NoMemory>
    ensures { IfOk result (λ spaces. (file : FileNo) (ioas : ObjId)
        → has_pair spaces file.0 ioas.0 ≡ has_hwpt objects.now file ioas) }
{
    let mut spaces = Pairs::new(alloc);
    for object in objects {
        add_space(&mut spaces, *object)?;
    }
    Ok(spaces)
}

// Whether the area is over an object that is asked for, in one of these address spaces.
fn is_translating<A: Allocator>(asked: &Numbers<A>, spaces: &Pairs<A>, area: &Area) -> bool
    ensures { result ≡ (has_number asked.now area.now.memory && has_pair spaces.now area.now.file.0 area.now.ioas.0) }
{
    asked.has(area.memory) && spaces.has(u64::from(area.file.0), u64::from(area.ioas.0))
}

// Of the numbers that are asked for those that a page table translates.
fn translated_of<A: Allocator + Copy>(
    alloc: A,
    objects: &[Object],
    areas: &[Area],
    asked: &Numbers<A>,
) -> Result<Numbers<A>, NoMemory>
    ensures { IfOk result (λ translated. (n : ℕ) → has_number translated n
        ≡ is_over (λ area. has_number asked.now area.memory && has_hwpt objects.now area.file area.ioas) areas.now n) }
{
    let spaces = spaces_of(alloc, objects)?;
    let mut translated = Numbers::new(alloc);
    for area in areas {
        translated.add_if(area.memory, is_translating(asked, &spaces, area))?;
    }
    Ok(translated)
}

// ---- pins

// The area as if it were live: of which pages access pins cover, its phase says nothing.
fn as_live(area: &Area) -> Area
    ensures { result ≡ with_phase phase.Live area.now }
{
    Area {
        file: area.file,
        ioas: area.ioas,
        span: area.span,
        memory: area.memory,
        rights: area.rights,
        phase: Phase::Live,
    }
}

// Whether it is over a memory object that is asked for and that no page table translates.
fn is_left<A: Allocator>(asked: &Numbers<A>, translated: &Numbers<A>, area: &Area) -> bool
    ensures { result ≡ (has_number asked.now area.now.memory && not (has_number translated.now area.now.memory)) }
{
    asked.has(area.memory) && !translated.has(area.memory)
}

// The areas over the memory objects that are asked for and that no page table translates.
fn areas_left<A: Allocator + Copy>(
    alloc: A,
    areas: &[Area],
    asked: &Numbers<A>,
    translated: &Numbers<A>,
) -> Result<Vec<Area, A>, NoMemory>
    ensures { IfOk result (λ left. left.items ≡ map (with_phase phase.Live)
        (filter (λ area. has_number asked.now area.memory && not (has_number translated.now area.memory)) areas.now)) }
{
    let mut left = Vec::new(alloc);
    for area in areas {
        if is_left(asked, translated, area) {
            left.push(as_live(area))?;
        }
    }
    Ok(left)
}

// Whether the pin stays, where these numbers are asked for, of which a page table translates those, and of the others
// these areas are left.
fn stays<A: Allocator>(
    asked: &Numbers<A>,
    translated: &Numbers<A>,
    objects: &[Object],
    left: &[Area],
    access_pins: &[AccessPin],
    pin: &Pin,
) -> bool
    ensures { result ≡ (not (has_number asked.now pin.now.memory) || has_number translated.now pin.now.memory
        || is_accessed objects.now left.now access_pins.now (page_of_pin pin.now)) }
{
    !asked.has(pin.memory)
        || translated.has(pin.memory)
        || is_accessed(objects, left, access_pins, pin.memory, pin.index)
}

/// The pins of pages that aren't to be pinned any more go. Its only error is want of memory.
pub fn keep_pinned<A: Allocator + Copy>(
    alloc: A,
    pins: &mut Vec<Pin, A>,
    objects: &[Object],
    areas: &[Area],
    access_pins: &[AccessPin],
    asked: &Numbers<A>,
) -> Result<(), NoMemory>
    requires { list_all (λ pin. has_number asked.now pin.memory
        || is_pinned objects.now areas.now access_pins.now (page_of_pin pin)) pins.old.items ≡ true }
    ensures { IfOk result (λ _. pins.new.items
        ≡ filter (λ pin. is_pinned objects.now areas.now access_pins.now (page_of_pin pin)) pins.old.items) }
{
    let translated = translated_of(alloc, objects, areas, asked)?;
    let left = areas_left(alloc, areas, asked, &translated)?;
    pins.retain(|pin| stays(asked, &translated, objects, &left, access_pins, pin));
    Ok(())
}
