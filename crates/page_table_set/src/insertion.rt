//! Where a page table stands among others, by rising file and id.

ghost use Rattle.std.specs.Prelude.{◌≡◌, ◌<◌, ◌≤◌, length, position, IfSome};
ghost use Rattle.std.specs.Prelude.{IsTrue, vec_len, vec_capacity};
ghost use Rattle.std.specs.List.{insert, position_or_len};
ghost use Rattle.iofd_words.specs.Objects as objects;
ghost use Rattle.page_table_set.specs.PageTables.{Hwpt, are_by_file, with_hwpt};

use crate::hwpt::Hwpt;
use crate::lookups::{count_below, of_file};
use iofd_words::Object;
use std::alloc::Allocator;

/// Adds a page table, by rising file and id, where there is room. It takes no memory.
pub(crate) fn insert<A: Allocator>(tables: &mut Vec<Hwpt, A>, hwpt: Hwpt)
    requires order { IsTrue (are_by_file tables.old.items) }
    requires room { vec_len tables.old < vec_capacity tables.old }
    ensures items { tables.new.items ≡ with_hwpt hwpt tables.old.items }
    ensures capacity { vec_capacity tables.new ≡ vec_capacity tables.old }
{
    let place = place_of(tables, &hwpt.object);
    tables.insert(place, hwpt).unwrap();
}

/// Before which page table one with this object stands. Those of other files are passed over by binary search.
fn place_of(tables: &[Hwpt], object: &Object) -> usize
    requires { IsTrue (are_by_file tables.now) }
    ensures within { result ≤ length tables.now }
    ensures value { (hwpt : Hwpt) → hwpt.object ≡ object.now →
        insert tables.now result hwpt ≡ with_hwpt hwpt tables.now }
{
    let behind = place_in(of_file(tables, object.file), object);
    count_below(tables, object.file) + behind
}

/// Before which of the page tables of its file it stands.
fn place_in(tables: &[Hwpt], object: &Object) -> usize
    ensures value { result ≡ position_or_len (λ h. objects.comes_before object.now h.object) tables.now }
    ensures within { result ≤ length tables.now }
{
    match first_after(tables, object) {
        Some(place) => place,
        None => tables.len(),
    }
}

/// Where the first that comes after the object stands.
fn first_after(tables: &[Hwpt], object: &Object) -> Option<usize>
    ensures value { result ≡ position (λ h. objects.comes_before object.now h.object) tables.now }
    ensures within { IfSome result (λ place. place < length tables.now) }
{
    tables
        .iter()
        .position(|hwpt| comes_before(object, &hwpt.object))
}

/// Whether the first is of a file before the other's, or of the same and has a lower id.
fn comes_before(object: &Object, other: &Object) -> bool
    ensures { result ≡ objects.comes_before object.now other.now }
{
    object.file.0 < other.file.0 || object.file == other.file && object.id.0 < other.id.0
}
