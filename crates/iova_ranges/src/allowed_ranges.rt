//! The ranges to which the addresses that the server chooses are bounded, by address space.

ghost use Rattle.std.specs.Prelude.{ℕ, ◌≡◌, ◌<◌, [], None, MatchOption, IfOk, OnOk, OnErr, length, filter};
ghost use Rattle.std.specs.Prelude.{find, not, ◌==◌};
ghost use Rattle.std.specs.Prelude.{◌&&◌, ◌||◌, ◌++◌, ◌∷◌, ◌+◌, ◌≤◌};
ghost use Rattle.std.specs.Prelude.{vec_len, vec_capacity};
ghost use Rattle.std.specs.List.{list_any};
ghost use Rattle.std.specs.Option.{option_copied};
ghost use Rattle.iofd_words.specs.Allowed.{allowed_of, is_allowed_in, without_allowed};
ghost use Rattle.iofd_words.specs.Ranges.{AreMerged, in_spans};
ghost use Rattle.iofd_words.specs.Span.{holds};
ghost use Rattle.iofd_words.specs.Usable.{allowed_spans};
ghost use Rattle.iova_ranges.specs.Gaps.{IsGap, IsSetOf};
ghost use Rattle.iova_ranges.specs.Ranges.{AllIn};

use crate::RangeSet;
use crate::sorting::by_start;
use iofd_words::{FileNo, IovaRange, NoMemory, ObjId, RangeList, Span};
use std::alloc::{Allocator, Global};
use std::marker::Model;

/// The ranges that IOMMU_IOAS_ALLOW_IOVAS allows in one address space of a file (uapi header, `linux/iommufd.h`). With
/// none each address is allowed. A contract sees them in the order given.
#[derive(Drop)]
pub struct AllowedRow<A: Allocator = Global> {
    file: FileNo,
    ioas: ObjId,
    ranges: RangeList<A>,
    set: RangeSet<A>,
}

impl<A: Allocator> Model for AllowedRow<A> {
    ghost use Rattle.iofd_words.specs.Allowed.{AllowedRanges};
    ghost use Rattle.iova_ranges.specs.Gaps.{IsSetOf};

    ghost Value = { AllowedRanges };

    ghost view = { λ row. record { file = row.file; ioas = row.ioas; spans = row.ranges } };

    ghost invariant = { λ row. IsSetOf row.set.spans row.ranges };
}

impl<A: Allocator + Copy> AllowedRow<A> {
    /// The row of this address space with these ranges. It fails only where memory does; no ranges need none.
    pub fn new(
        alloc: A,
        file: FileNo,
        ioas: ObjId,
        ranges: RangeList<A>,
    ) -> Result<AllowedRow<A>, NoMemory>
        ensures ok { IfOk result (λ row. row ≡ record { file = file; ioas = ioas; spans = ranges }) }
        ensures memory { OnErr result (0 < length ranges) }
    {
        let set = set_of(alloc, ranges.as_slice())?;
        Ok(AllowedRow {
            file,
            ioas,
            ranges,
            set,
        })
    }
}

impl<A: Allocator> AllowedRow<A> {
    /// The ranges, in the order given. It takes no memory.
    pub fn ranges(&self) -> &[IovaRange]
        ensures { result.now ≡ self.now.spans }
    {
        self.ranges.as_slice()
    }

    // Whether the row is that of this address space.
    fn is_at(&self, file: FileNo, ioas: ObjId) -> bool
        ensures { result ≡ is_allowed_in file ioas self.now }
    {
        self.file == file && self.ioas == ioas
    }

    // Whether it is that of an address space of this file.
    fn is_of(&self, file: FileNo) -> bool
        ensures { result ≡ (self.now.file.0 == file.0) }
    {
        self.file == file
    }

    /// Numbers that aren't allowed, one of which lies in the span; None where each number of it is allowed. It takes
    /// no memory.
    pub fn gap_meeting(&self, span: Span) -> Option<Span>
        ensures { MatchOption result
            (AllIn (allowed_spans self.now.spans) span)
            (IsGap (allowed_spans self.now.spans) span) }
    {
        if self.ranges.as_slice().is_empty() {
            return None;
        }
        self.set.gap_meeting(span)
    }
}

// The set of the numbers of these ranges. They are added by rising start, so that no span of the set has to move.
fn set_of<A: Allocator + Copy>(alloc: A, ranges: &[IovaRange]) -> Result<RangeSet<A>, NoMemory>
    ensures set { IfOk result (λ set. IsSetOf set.spans ranges.now) }
    ensures memory { OnErr result (0 < length ranges.now) }
{
    let sorted = by_start(alloc, ranges)?;
    let set = set_in_order(alloc, &sorted)?;
    Ok(set)
}

// The set of the numbers of these ranges, which are added in the order in which they stand.
fn set_in_order<A: Allocator>(alloc: A, ranges: &[IovaRange]) -> Result<RangeSet<A>, NoMemory>
    ensures set { IfOk result (λ set. IsSetOf set.spans ranges.now) }
    ensures memory { OnErr result (0 < length ranges.now) }
{
    let mut set = RangeSet::new(alloc);
    for range in ranges {
        add_range(&mut set, *range)?;
    }
    Ok(set)
}

// Adds the numbers of the range; one that begins above its last address has none.
fn add_range<A: Allocator>(set: &mut RangeSet<A>, range: IovaRange) -> Result<(), NoMemory>
    ensures numbers { OnOk result ((n : ℕ) →
        in_spans set.new.spans n ≡ (in_spans set.old.spans n || holds range n)) }
    ensures merged { AreMerged set.old.spans → AreMerged set.new.spans }
{
    match Span::new(range.start, range.last) {
        Some(span) => set.add(span),
        None => Ok(()),
    }
}

/// The allowed ranges of all address spaces that have any. A contract sees the rows, of which the ranges of an address
/// space are asked, and for how many more of them there is memory. What it has taken it keeps: rows and room together
/// never get fewer.
#[derive(Drop)]
pub struct AllowedTable<A: Allocator = Global> {
    rows: Vec<AllowedRow<A>, A>,
}

impl<A: Allocator> Model for AllowedTable<A> {
    ghost use Rattle.std.specs.Prelude.{◌-◌, vec_capacity, vec_len};
    ghost use Rattle.iova_ranges.specs.AllowedRows.{AllowedRows};

    ghost Value = { AllowedRows };

    ghost view = { λ table. record {
      rows = table.rows.items;
      room = vec_capacity table.rows - vec_len table.rows;
    } };
}

impl<A: Allocator> AllowedTable<A> {
    /// No rows. It takes no memory.
    pub fn new(alloc: A) -> AllowedTable<A>
        ensures { result.rows ≡ [] }
    {
        AllowedTable {
            rows: Vec::new(alloc),
        }
    }

    /// The row of this address space. It takes no memory.
    pub fn of(&self, file: FileNo, ioas: ObjId) -> Option<&AllowedRow<A>>
        ensures { MatchOption result
            (allowed_of self.now.rows file ioas ≡ [])
            (λ row. allowed_of self.now.rows file ioas ≡ row.now.spans) }
    {
        match self.row_at(file, ioas) {
            Some(row) => Some(row),
            None => None,
        }
    }

    // The row of this address space.
    fn row_at(&self, file: FileNo, ioas: ObjId) -> Option<&AllowedRow<A>>
        ensures { option_copied result ≡ find (is_allowed_in file ioas) self.now.rows }
    {
        self.rows.iter().find(|row| row.is_at(file, ioas))
    }

    /// Puts the row in the place of the one that its address space had, if any: then it takes no memory. NoMemory
    /// comes only where it had none and there was no room for one more, and leaves the rows as they were.
    pub fn set(&mut self, row: AllowedRow<A>) -> Result<(), NoMemory>
        ensures rows { OnOk result (self.new.rows ≡ without_allowed row.file row.ioas self.old.rows ++ row ∷ []) }
        ensures memory { OnErr result (find (is_allowed_in row.file row.ioas) self.old.rows ≡ None) }
        ensures full { OnErr result (self.old.room ≡ 0) }
        ensures err { OnErr result (self.new ≡ self.old) }
        ensures room { length self.old.rows + self.old.room ≤ length self.new.rows + self.new.room }
    {
        reserve_for(&mut self.rows, row.file, row.ioas)?;
        put(&mut self.rows, row);
        Ok(())
    }

    /// Takes away the row of this address space, if it has one. It takes no memory.
    pub fn remove(&mut self, file: FileNo, ioas: ObjId)
        ensures rows { self.new.rows ≡ without_allowed file ioas self.old.rows }
        ensures room { length self.old.rows + self.old.room ≤ length self.new.rows + self.new.room }
    {
        take_away(&mut self.rows, file, ioas);
    }

    /// Takes away the rows of this file's address spaces. It takes no memory.
    pub fn remove_file(&mut self, file: FileNo)
        ensures rows { self.new.rows ≡ filter (λ row. not (row.file.0 == file.0)) self.old.rows }
        ensures room { length self.old.rows + self.old.room ≤ length self.new.rows + self.new.room }
    {
        self.rows.retain(|row| !row.is_of(file));
    }
}

// Takes memory for one more row, if this address space has none and there is no place for it.
fn reserve_for<A: Allocator>(
    rows: &mut Vec<AllowedRow<A>, A>,
    file: FileNo,
    ioas: ObjId,
) -> Result<(), NoMemory>
    ensures items { rows.new.items ≡ rows.old.items }
    ensures ok { OnOk result (length (without_allowed file ioas rows.old.items) < vec_capacity rows.new) }
    ensures memory { OnErr result (find (is_allowed_in file ioas) rows.old.items ≡ None) }
    ensures full { OnErr result (vec_capacity rows.old ≤ vec_len rows.old) }
    ensures err { OnErr result (vec_capacity rows.new ≡ vec_capacity rows.old) }
    ensures capacity { vec_capacity rows.old ≤ vec_capacity rows.new }
{
    if has_row(rows, file, ioas) {
        return Ok(());
    }
    if rows.reserve(1).is_err() {
        return Err(NoMemory);
    }
    Ok(())
}

// Whether this address space has a row.
fn has_row<A: Allocator>(rows: &[AllowedRow<A>], file: FileNo, ioas: ObjId) -> bool
    ensures { result ≡ list_any (is_allowed_in file ioas) rows.now }
{
    rows.iter().any(|row| row.is_at(file, ioas))
}

// Puts the row behind the others, of which the one of its address space goes. There is room for it.
fn put<A: Allocator>(rows: &mut Vec<AllowedRow<A>, A>, row: AllowedRow<A>)
    requires { length (without_allowed row.file row.ioas rows.old.items) < vec_capacity rows.old }
    ensures rows { rows.new.items ≡ without_allowed row.file row.ioas rows.old.items ++ row ∷ [] }
    ensures len { vec_len rows.new ≤ vec_len rows.old + 1 }
    ensures capacity { vec_capacity rows.old ≤ vec_capacity rows.new }
{
    take_away(rows, row.file, row.ioas);
    let _ = rows.push(row);
}

// The row of this address space goes, if there is one.
fn take_away<A: Allocator>(rows: &mut Vec<AllowedRow<A>, A>, file: FileNo, ioas: ObjId)
    ensures rows { rows.new.items ≡ without_allowed file ioas rows.old.items }
    ensures len { vec_len rows.new ≤ vec_len rows.old }
    ensures capacity { vec_capacity rows.new ≡ vec_capacity rows.old }
{
    rows.retain(|row| !row.is_at(file, ioas));
}
