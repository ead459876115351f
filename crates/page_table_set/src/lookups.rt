//! Look-ups in the rows of page tables: where there are many, the file's are found by binary search, and only they are
//! looked at.

ghost use Rattle.std.specs.Prelude.{◌≡◌, ◌<◌, ◌≤◌, ◌==◌, ◌&&◌, IfSome, IsTrue, filter, find};
ghost use Rattle.std.specs.Prelude.{length, nat_le, nat_lt};
ghost use Rattle.std.specs.Prelude.{position};
ghost use Rattle.std.specs.List.{list_any, prefix_len};
ghost use Rattle.std.specs.Option.{option_copied};
ghost use Rattle.iofd_words.specs.Objects as objects;
ghost use Rattle.page_table_set.specs.PageTables.{are_by_file, hwpt_of};
ghost use Rattle.page_table_set.specs.Removed.{id_of};

use crate::hwpt::Hwpt;
use iofd_words::{FileNo, ObjId, ObjectKind, Width};

/// Up to how many page tables each is looked at, which is quicker than a search then.
const FEW: usize = 8;

/// How many are of a file below this one.
pub(crate) fn count_below(tables: &[Hwpt], file: FileNo) -> usize
    requires { IsTrue (are_by_file tables.now) }
    ensures value { result ≡ prefix_len (λ h. nat_lt h.object.file.0 file.0) tables.now }
    ensures bound { result ≤ length tables.now }
{
    tables.partition_point(|hwpt| hwpt.object.file.0 < file.0)
}

/// How many are of this file or of one below it.
fn count_until(tables: &[Hwpt], file: FileNo) -> usize
    requires { IsTrue (are_by_file tables.now) }
    ensures value { result ≡ prefix_len (λ h. nat_le h.object.file.0 file.0) tables.now }
    ensures bound { result ≤ length tables.now }
{
    tables.partition_point(|hwpt| hwpt.object.file.0 <= file.0)
}

/// The file's page tables.
pub(crate) fn of_file(tables: &[Hwpt], file: FileNo) -> &[Hwpt]
    requires { IsTrue (are_by_file tables.now) }
    ensures { result.now ≡ filter (λ h. h.object.file.0 == file.0) tables.now }
{
    let from = count_below(tables, file);
    let to = count_until(tables, file);
    &tables[from..to]
}

/// Whether one of them is over the file's address space of this id.
pub(crate) fn has_over(tables: &[Hwpt], file: FileNo, ioas: ObjId) -> bool
    requires { IsTrue (are_by_file tables.now) }
    ensures { result
        ≡ list_any (λ h. h.object.file.0 == file.0 && objects.is_hwpt_over ioas h.object.kind) tables.now }
{
    if tables.len() <= FEW {
        any_over(tables, file, ioas)
    } else {
        own_over(tables, file, ioas)
    }
}

/// Whether one of them is over it, by searching the file's.
fn own_over(tables: &[Hwpt], file: FileNo, ioas: ObjId) -> bool
    requires { IsTrue (are_by_file tables.now) }
    ensures { result
        ≡ list_any (λ h. h.object.file.0 == file.0 && objects.is_hwpt_over ioas h.object.kind) tables.now }
{
    any_over(of_file(tables, file), file, ioas)
}

/// Whether one of them is over it, by looking at each.
fn any_over(tables: &[Hwpt], file: FileNo, ioas: ObjId) -> bool
    ensures { result
        ≡ list_any (λ h. h.object.file.0 == file.0 && objects.is_hwpt_over ioas h.object.kind) tables.now }
{
    tables.iter().any(|hwpt| is_over(hwpt, file, ioas))
}

/// Whether it is a page table over the file's address space of this id.
pub(crate) fn is_over(hwpt: &Hwpt, file: FileNo, ioas: ObjId) -> bool
    ensures { result ≡ (hwpt.now.object.file.0 == file.0 && objects.is_hwpt_over ioas hwpt.now.object.kind) }
{
    hwpt.object.file == file
        && match hwpt.object.kind {
            ObjectKind::Hwpt { ioas: over, .. } => over == ioas,
            _ => false,
        }
}

/// The first of the file's over the address space that is automatic and of this width.
pub(crate) fn automatic_over(
    tables: &[Hwpt],
    file: FileNo,
    ioas: ObjId,
    width: Width,
) -> Option<&Hwpt>
    requires { IsTrue (are_by_file tables.now) }
    ensures { option_copied result ≡ find (λ h. h.object.file.0 == file.0
        && objects.is_automatic_over ioas width h.object.kind) tables.now }
{
    automatic_in(of_file(tables, file), file, ioas, width)
}

/// The first of them that is, by looking at each.
fn automatic_in(tables: &[Hwpt], file: FileNo, ioas: ObjId, width: Width) -> Option<&Hwpt>
    ensures { option_copied result ≡ find (λ h. h.object.file.0 == file.0
        && objects.is_automatic_over ioas width h.object.kind) tables.now }
{
    tables
        .iter()
        .find(|hwpt| is_automatic_over(hwpt, file, ioas, width))
}

/// Whether it is an automatic page table of this width over the file's address space of this id.
fn is_automatic_over(hwpt: &Hwpt, file: FileNo, ioas: ObjId, width: Width) -> bool
    ensures { result ≡ (hwpt.now.object.file.0 == file.0
        && objects.is_automatic_over ioas width hwpt.now.object.kind) }
{
    hwpt.object.file == file
        && match hwpt.object.kind {
            ObjectKind::Hwpt {
                ioas: over,
                width: of,
                automatic,
            } => over == ioas && automatic && of.bits() == width.bits(),
            _ => false,
        }
}

/// The file's page table of this id.
pub(crate) fn find(tables: &[Hwpt], file: FileNo, id: ObjId) -> Option<&Hwpt>
    requires { IsTrue (are_by_file tables.now) }
    ensures { option_copied result ≡ hwpt_of tables.now file id }
{
    if tables.len() <= FEW {
        find_in(tables, file, id)
    } else {
        find_own(tables, file, id)
    }
}

/// The file's page table of this id, by searching the file's.
fn find_own(tables: &[Hwpt], file: FileNo, id: ObjId) -> Option<&Hwpt>
    requires { IsTrue (are_by_file tables.now) }
    ensures { option_copied result ≡ hwpt_of tables.now file id }
{
    find_in(of_file(tables, file), file, id)
}

/// The file's page table of this id, by looking at each.
fn find_in(tables: &[Hwpt], file: FileNo, id: ObjId) -> Option<&Hwpt>
    ensures { option_copied result ≡ hwpt_of tables.now file id }
{
    tables
        .iter()
        .find(|hwpt| hwpt.object.file == file && hwpt.object.id == id)
}

/// Where the file's page table of this id stands.
pub(crate) fn place(tables: &[Hwpt], file: FileNo, id: ObjId) -> Option<usize>
    requires { IsTrue (are_by_file tables.now) }
    ensures value { result ≡ position (λ h. objects.is_object file id h.object) tables.now }
    ensures within { IfSome result (λ place. place < length tables.now) }
{
    if tables.len() <= FEW {
        place_in(tables, file, id)
    } else {
        own_place(tables, file, id)
    }
}

/// Its place, by searching the file's.
fn own_place(tables: &[Hwpt], file: FileNo, id: ObjId) -> Option<usize>
    requires { IsTrue (are_by_file tables.now) }
    ensures value { result ≡ position (λ h. objects.is_object file id h.object) tables.now }
    ensures within { IfSome result (λ place. place < length tables.now) }
{
    let behind = place_in(of_file(tables, file), file, id)?;
    Some(count_below(tables, file) + behind)
}

/// Its place, by looking at each.
fn place_in(tables: &[Hwpt], file: FileNo, id: ObjId) -> Option<usize>
    ensures value { result ≡ position (λ h. objects.is_object file id h.object) tables.now }
    ensures within { IfSome result (λ place. place < length tables.now) }
{
    tables
        .iter()
        .position(|hwpt| hwpt.object.file == file && hwpt.object.id == id)
}

/// The id of the file's first page table.
pub(crate) fn first_of(tables: &[Hwpt], file: FileNo) -> Option<ObjId>
    requires { IsTrue (are_by_file tables.now) }
    ensures { result ≡ id_of (find (λ h. h.object.file.0 == file.0) tables.now) }
{
    let hwpt = of_file(tables, file).first()?;
    Some(hwpt.object.id)
}
