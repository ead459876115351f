//! The ranges to which the addresses that the server chooses are bounded.

ghost use Rattle.std.specs.Prelude.{◌≡◌, ◌==◌, IfOk, find, not, filter};
ghost use Rattle.std.specs.List.{list_any};
ghost use Rattle.std.specs.Option.{option_copied};
ghost use Rattle.iofd_words.specs.Allowed.{are_ranges, is_allowed_in, with_allowed, without_allowed};
ghost use Rattle.iofd_words.specs.Ranges.{meets_some};
ghost use Rattle.iofd_words.specs.Span.{meets};

use crate::world::AllowedRow;
use iofd_words::{FileNo, IovaRange, NoMemory, ObjId};
use std::alloc::Allocator;

// Whether it is the row of the address space.
fn is_of<A: Allocator>(file: FileNo, ioas: ObjId, row: &AllowedRow<A>) -> bool
    ensures { result ≡ is_allowed_in file ioas row.now }
{
    row.file.0 == file.0 && row.ioas.0 == ioas.0
}

/// The row of the ranges that the address space allows, if it has one.
pub fn row_of<A: Allocator>(
    rows: &[AllowedRow<A>],
    file: FileNo,
    ioas: ObjId,
) -> Option<&AllowedRow<A>>
    ensures { option_copied result ≡ find (is_allowed_in file ioas) rows.now }
{
    for row in rows {
        if is_of(file, ioas, row) {
            return Some(row);
        }
    }
    None
}

/// Whether the two have an address in common.
pub fn meets(a: IovaRange, b: IovaRange) -> bool
    ensures { result ≡ meets a b }
{
    a.start <= b.last && b.start <= a.last
}

/// Whether some range has an address in common with this one.
pub fn meets_some(ranges: &[IovaRange], range: IovaRange) -> bool
    ensures { result ≡ meets_some ranges.now range }
{
    for one in ranges {
        if meets(*one, range) {
            return true;
        }
    }
    false
}

/// Whether each range begins below its last address, and no two have an address in common.
pub fn are_ranges(ranges: &[IovaRange]) -> bool
    ensures { result ≡ are_ranges ranges.now }
{
    for (index, range) in ranges.iter().enumerate() {
        if range.start >= range.last || meets_some(&ranges[index + 1..], *range) {
            return false;
        }
    }
    true
}

/// The ranges of the address space go.
pub fn remove_of<A: Allocator>(rows: &mut Vec<AllowedRow<A>, A>, file: FileNo, ioas: ObjId)
    ensures { rows.new.items ≡ without_allowed file ioas rows.old.items }
{
    rows.retain(move |row| !(row.file.0 == file.0 && row.ioas.0 == ioas.0));
}

/// The ranges of the file go.
pub fn remove_of_file<A: Allocator>(rows: &mut Vec<AllowedRow<A>, A>, file: FileNo)
    ensures { rows.new.items ≡ filter (λ row. not (row.file.0 == file.0)) rows.old.items }
{
    rows.retain(move |row| !(row.file.0 == file.0));
}

/// The address space allows these now, in place of those before. Its only error is want of memory.
pub fn set<A: Allocator + Copy>(
    alloc: A,
    rows: &mut Vec<AllowedRow<A>, A>,
    file: FileNo,
    ioas: ObjId,
    ranges: &[IovaRange],
) -> Result<(), NoMemory>
    ensures { IfOk result (λ _. rows.new.items ≡ with_allowed file ioas ranges.now rows.old.items) }
{
    let ranges = Vec::from_slice(alloc, ranges)?;
    remove_of(rows, file, ioas);
    rows.insert(0, AllowedRow { file, ioas, ranges })?;
    Ok(())
}
