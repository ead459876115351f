//! The numbers of the memory objects that areas are over. Each goes through the areas once.

ghost use Rattle.std.specs.Prelude.{◌≡◌, ◌==◌, ◌&&◌, ◌||◌, ℕ, IfOk};
ghost use Rattle.iofd_words.specs.Areas.{is_of};
ghost use Rattle.iofd_words.specs.Span.{meets};
ghost use Rattle.journal_audit_world.specs.Keys.{has_number};
ghost use Rattle.journal_audit_world.specs.Over.{is_over};

use crate::areas::is_of;
use crate::numbers::Numbers;
use iofd_words::{Area, FileNo, NoMemory, ObjId};
use std::alloc::Allocator;

/// Those of areas of the address space are added.
pub fn add_under<A: Allocator + Copy>(
    numbers: &mut Numbers<A>,
    areas: &[Area],
    file: FileNo,
    ioas: ObjId,
) -> Result<(), NoMemory>
    ensures { IfOk result (λ _. (n : ℕ) → has_number numbers.new n
        ≡ (has_number numbers.old n || is_over (is_of file ioas) areas.now n)) }
{
    for area in areas {
        numbers.add_if(area.memory, is_of(file, ioas, area))?;
    }
    Ok(())
}

// Whether it is an area of the address space that has an address from the first up to the last.
fn is_meeting(area: &Area, file: FileNo, ioas: ObjId, first: u64, last: u128) -> bool
    ensures { result ≡ (is_of file ioas area.now && meets area.now.span (record { first = first; last = last })) }
{
    is_of(file, ioas, area) && u128::from(area.span.first()) <= last && first <= area.span.last()
}

/// Those of areas of the address space that have an address from the first up to the last are added.
pub fn add_meeting<A: Allocator + Copy>(
    numbers: &mut Numbers<A>,
    areas: &[Area],
    file: FileNo,
    ioas: ObjId,
    first: u64,
    last: u128,
) -> Result<(), NoMemory>
    ensures { IfOk result (λ _. (n : ℕ) → has_number numbers.new n ≡ (has_number numbers.old n
        || is_over (λ area. is_of file ioas area && meets area.span (record { first = first; last = last }))
        areas.now n)) }
{
    for area in areas {
        numbers.add_if(area.memory, is_meeting(area, file, ioas, first, last))?;
    }
    Ok(())
}

/// Those of areas of the file are added.
pub fn add_of_file<A: Allocator + Copy>(
    numbers: &mut Numbers<A>,
    areas: &[Area],
    file: FileNo,
) -> Result<(), NoMemory>
    ensures { IfOk result (λ _. (n : ℕ) → has_number numbers.new n
        ≡ (has_number numbers.old n || is_over (λ area. area.file.0 == file.0) areas.now n)) }
{
    for area in areas {
        numbers.add_if(area.memory, area.file.0 == file.0)?;
    }
    Ok(())
}

/// Of the numbers that are asked for those that an area is over.
pub fn used_of<A: Allocator + Copy>(
    alloc: A,
    areas: &[Area],
    asked: &Numbers<A>,
) -> Result<Numbers<A>, NoMemory>
    ensures { IfOk result (λ used. (n : ℕ) → has_number used n
        ≡ is_over (λ area. has_number asked.now area.memory) areas.now n) }
{
    let mut used = Numbers::new(alloc);
    for area in areas {
        used.add_if(area.memory, asked.has(area.memory))?;
    }
    Ok(used)
}
