//! The tables that page tables lack, to map pages of their address space.

ghost use Rattle.std.specs.Prelude.{◌≡◌, ◌≤◌, ◌+◌, ◌^◌, ◌∷◌, ◌++◌, [], ◌==◌, Some, None, IfOk, if◌then◌else◌};
ghost use Rattle.std.specs.List.{range_with_len};
ghost use Rattle.iofd_words.specs.Areas.{areas_of};
ghost use Rattle.iofd_words.specs.TablePlaces.{live_pages, root_place};
ghost use Rattle.journal_audit_tables.specs.Gathered.{Lacks};
ghost use Rattle.journal_audit_tables.specs.Missing.{missing_by, missing_in, missing_over, width_over};

use crate::gathered::Gathered;
use crate::place::{Missing, Pages, levels_of};
use iofd_words::{Area, FileNo, NoMemory, ObjId, Object, ObjectKind, TableFrame, Width};
use std::alloc::Allocator;

/// The tables that a page table of this width lacks, to map these pages.
pub fn missing_in_pages<A: Allocator + Copy>(
    alloc: A,
    tables: &[TableFrame],
    file: FileNo,
    hwpt: ObjId,
    width: Width,
    pages: Pages,
) -> Result<Vec<Missing, A>, NoMemory>
    requires { pages.first + pages.count ≤ 2 ^ 52 }
    ensures { IfOk result (λ missing. missing.items
        ≡ missing_in tables.now file hwpt width (range_with_len pages.first pages.count)) }
{
    let mut gathered = with_root(alloc, tables, file, hwpt, width)?;
    gathered.add_pages(levels_of(width) - 1, pages.first, pages.count)?;
    Ok(gathered.into_found())
}

/// Those that it lacks to map all live areas of the address space.
pub fn missing_in_areas<A: Allocator + Copy>(
    alloc: A,
    tables: &[TableFrame],
    areas: &[Area],
    file: FileNo,
    ioas: ObjId,
    hwpt: ObjId,
    width: Width,
) -> Result<Vec<Missing, A>, NoMemory>
    ensures { IfOk result (λ missing. missing.items
        ≡ missing_in tables.now file hwpt width (live_pages (areas_of areas.now file ioas))) }
{
    let mut gathered = with_root(alloc, tables, file, hwpt, width)?;
    gathered.add_areas(levels_of(width) - 1, areas, file, ioas)?;
    Ok(gathered.into_found())
}

// The root alone.
fn with_root<A: Allocator + Copy>(
    alloc: A,
    tables: &[TableFrame],
    file: FileNo,
    hwpt: ObjId,
    width: Width,
) -> Result<Gathered<A>, NoMemory>
    ensures { IfOk result (λ g. Lacks tables.now file hwpt g (root_place width ∷ [])) }
{
    let mut gathered = Gathered::new(alloc, tables, file, hwpt)?;
    gathered.add(levels_of(width), 0)?;
    Ok(gathered)
}

/// Those that all page tables over the address space lack, to map these pages. For each page table the rows of tables
/// are gone through once.
pub fn missing_over<A: Allocator + Copy>(
    alloc: A,
    tables: &[TableFrame],
    objects: &[Object],
    file: FileNo,
    ioas: ObjId,
    pages: Pages,
) -> Result<Vec<Missing, A>, NoMemory>
    requires { pages.first + pages.count ≤ 2 ^ 52 }
    ensures { IfOk result (λ missing. missing.items
        ≡ missing_over tables.now file ioas (range_with_len pages.first pages.count) objects.now) }
{
    let mut missing = Vec::new(alloc);
    for object in objects {
        let width = width_over(file, ioas, *object);
        add_missing(alloc, &mut missing, tables, file, object.id, width, pages)?;
    }
    Ok(missing)
}

// The width of the object, if it is a page table over the address space.
fn width_over(file: FileNo, ioas: ObjId, object: Object) -> Option<Width>
    ensures { result ≡ width_over file ioas object }
{
    if object.file.0 != file.0 {
        return None;
    }
    match object.kind {
        ObjectKind::Hwpt {
            ioas: over,
            width,
            ..
        } if over.0 == ioas.0 => Some(width),
        _ => None,
    }
}

// Those of one page table too, if there is one.
fn add_missing<A: Allocator + Copy>(
    alloc: A,
    missing: &mut Vec<Missing, A>,
    tables: &[TableFrame],
    file: FileNo,
    hwpt: ObjId,
    width: Option<Width>,
    pages: Pages,
) -> Result<(), NoMemory>
    requires { pages.first + pages.count ≤ 2 ^ 52 }
    ensures { IfOk result (λ _. missing.new.items ≡ missing.old.items
        ++ missing_by tables.now file hwpt (range_with_len pages.first pages.count) width) }
{
    let Some(width) = width else {
        return Ok(());
    };
    let more = missing_in_pages(alloc, tables, file, hwpt, width, pages)?;
    missing.extend_from_slice(&more)?;
    Ok(())
}
