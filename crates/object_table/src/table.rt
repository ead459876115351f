//! The table of all files, and what it answers.

ghost use Rattle.std.specs.Prelude.{◌≡◌, ℕ, ◌≤◌, ◌<◌, ◌+◌, None, IsSome, Some, IfOk, IfErr};
ghost use Rattle.std.specs.Prelude.{MatchOption, nat_le};
ghost use Rattle.std.specs.Prelude.{length, option_copied};
ghost use Rattle.std.specs.Option.{option_map};
ghost use Rattle.std.specs.Borrow.{sem};

use crate::file_objects::{Entry, FileObjects};
use crate::kind::{Kind, Typed};
use iofd_words::{Cause, FileNo, NoMemory, ObjId, Refusal};
use slab::Slab;
use std::alloc::{Allocator, Global};
use std::marker::Model;

/// The objects of all files: for each open file a table of objects, each under an id of that file. An
/// object has a count of those that use it, and a value, which tells its kind.
#[derive(Drop)]
pub struct ObjectTable<V, A: Allocator = Global> {
    // The file of number n stands at n - 1.
    pub(crate) files: Vec<FileObjects<V, A>, A>,
}

impl<V, A: Allocator> Model for ObjectTable<V, A> {
    ghost use Rattle.object_table.specs.Table.{Table};

    ghost Value = { Table V };

    ghost use Rattle.object_table.specs.Layout.{table_of, AllInLimits};

    ghost view = { λ t. table_of t.files.items };

    ghost invariant = { λ t. AllInLimits t.files.items };
}

/// Where the file stands among so many.
pub(crate) fn place_of(file: FileNo, count: usize) -> Option<usize>
    ensures { MatchOption result
        ((place : ℕ) → place + 1 ≡ file.0 → count ≤ place)
        (λ place. (place + 1 ≡ file.0) × (place < count)) }
{
    if file.0 == 0 || file.0 as usize > count {
        return None;
    }
    Some(file.0 as usize - 1)
}

impl<V, A: Allocator + Copy> ObjectTable<V, A> {
    ghost use Rattle.object_table.specs.Table.{fresh_table};

    /// A table of so many files, numbered from 1, all open and empty. It fails only where memory does.
    pub fn new(alloc: A, count: u16) -> Result<Self, NoMemory>
        ensures { IfOk result (λ t. t ≡ fresh_table count) }
    {
        let Ok(mut files) = Vec::with_capacity(alloc, count as usize) else {
            return Err(NoMemory);
        };
        for _number in 0..count {
            let file = FileObjects {
                is_open: true,
                objects: Slab::new(alloc),
            };
            files.push(file).unwrap();
        }
        Ok(ObjectTable { files })
    }
}

impl<V, A: Allocator> ObjectTable<V, A> {
    ghost use Rattle.object_table.specs.Table.{is_open, row_at, rows_of, greatest_count};
    ghost use Rattle.object_table.specs.Lends.{lends_users, lends_value};

    /// Whether the file is open. A file of another number than 1 to the count of files isn't.
    pub fn is_open(&self, file: FileNo) -> bool
        ensures { result ≡ is_open self.now file }
    {
        match place_of(file, self.files.len()) {
            Some(place) => self.files[place].is_open,
            None => false,
        }
    }

    /// Whether the file has as many objects as it may have, 65,535, so that another is refused. A closed or
    /// unknown file isn't full. It doesn't count them.
    pub fn is_full(&self, file: FileNo) -> bool
        ensures { result ≡ nat_le greatest_count (length (rows_of self.now file)) }
    {
        match place_of(file, self.files.len()) {
            Some(place) => self.files[place].is_full(),
            None => false,
        }
    }

    /// What holds of every file: it has at most 65,535 objects. The call does nothing else.
    pub fn facts(&self, file: FileNo)
        ensures { length (rows_of self.now file) ≤ greatest_count }
    {
        let _ = self.count(file);
    }

    /// How many objects the file has: at most 65,535, and none where it is closed or unknown. It doesn't count them.
    pub fn count(&self, file: FileNo) -> usize
        ensures count { result ≡ length (rows_of self.now file) }
        ensures few { result ≤ greatest_count }
    {
        match place_of(file, self.files.len()) {
            Some(place) => self.files[place].count(),
            None => 0,
        }
    }

    /// How many use the object that has the id in the file, for writing.
    pub(crate) fn users_mut(&mut self, file: FileNo, id: ObjId) -> &mut u32
        requires { IsSome (row_at self.old file id) }
        ensures* writes_back { sem 𝓛 (lends_users V.row A.row A.Allocator self.entry file id result) }
        ensures value { option_map (λ row. row.users) (row_at self.old file id) ≡ Some result.now }
    {
        let entry = self.files[file.0 as usize - 1].entry_mut(id);
        &mut entry.users
    }

    /// What the object holds that has the id in the file, for writing.
    pub(crate) fn value_mut(&mut self, file: FileNo, id: ObjId) -> &mut V
        requires { IsSome (row_at self.old file id) }
        ensures* writes_back { sem 𝓛 (lends_value V.row A.row A.Allocator self.entry file id result) }
        ensures value { option_map (λ row. row.value) (row_at self.old file id) ≡ Some result.now }
    {
        let entry = self.files[file.0 as usize - 1].entry_mut(id);
        &mut entry.value
    }
}

impl<V: Typed, A: Allocator> ObjectTable<V, A> {
    ghost use Rattle.object_table.specs.Table.{row_at, own, is_held};
    ghost use Rattle.object_table.specs.Layout.{row_of, own_row};

    /// The kind of the object that has the id in the file, if the file is open and has one.
    pub fn kind_of(&self, file: FileNo, id: ObjId) -> Option<Kind>
        ensures { result ≡ option_map (λ row. V.kind row.value) (row_at self.now file id) }
    {
        Some(self.entry(file, id)?.value.kind())
    }

    /// What the object holds that has the id in the file, of whatever kind, if the file is open and has one.
    pub fn value(&self, file: FileNo, id: ObjId) -> Option<&V>
        ensures { option_copied result ≡ option_map (λ row. row.value) (row_at self.now file id) }
    {
        Some(&self.entry(file, id)?.value)
    }

    /// Whether an object keeps the file from being closed, a device or an access. None does so in a closed or
    /// unknown file. It looks at every object of the file.
    pub fn is_held(&self, file: FileNo) -> bool
        ensures { result ≡ is_held V.kind self.now file }
    {
        match place_of(file, self.files.len()) {
            Some(place) => {
                let objects = &self.files[place];
                objects.is_open && objects.is_held()
            }
            None => false,
        }
    }

    /// What the object of this kind holds that has the id in the file.
    ///
    /// Refused by 11 (ENOENT) exactly where the file is closed or unknown, or the id is unknown, another
    /// file's or of an object of another kind (`iommufd.rst`: an id names an object of its own file).
    pub fn get(&self, file: FileNo, kind: Kind, id: ObjId) -> Result<&V, Refusal>
        ensures ok { IfOk result (λ value.
            option_map (λ row. row.value) (own V.kind self.now file kind id) ≡ Some value.now) }
        ensures refused { IfErr result (λ refusal.
            (own V.kind self.now file kind id ≡ None) × (refusal.cause ≡ Cause.Id)) }
    {
        Ok(&self.own_entry(file, kind, id)?.value)
    }

    /// How many use the object. Refused by 11 (ENOENT) as `get`.
    pub fn users(&self, file: FileNo, kind: Kind, id: ObjId) -> Result<u32, Refusal>
        ensures ok { IfOk result (λ users.
            option_map (λ row. row.users) (own V.kind self.now file kind id) ≡ Some users) }
        ensures refused { IfErr result (λ refusal.
            (own V.kind self.now file kind id ≡ None) × (refusal.cause ≡ Cause.Id)) }
    {
        Ok(self.own_entry(file, kind, id)?.users)
    }

    /// The object that has the id in the file.
    fn entry(&self, file: FileNo, id: ObjId) -> Option<&Entry<V>>
        ensures at { row_at self.now file id ≡ option_map (row_of file id) (option_copied result) }
        ensures own { (kind : _) →
            own V.kind self.now file kind id ≡ own_row V.kind file kind id (option_copied result) }
    {
        let place = place_of(file, self.files.len())?;
        self.files[place].entry(id)
    }

    /// The object of this kind that has the id in the file; 11 where there is none.
    pub(crate) fn own_entry(
        &self,
        file: FileNo,
        kind: Kind,
        id: ObjId,
    ) -> Result<&Entry<V>, Refusal>
        ensures ok { IfOk result (λ entry.
            own V.kind self.now file kind id ≡ Some (row_of file id entry.now)) }
        ensures at { IfOk result (λ entry. row_at self.now file id ≡ Some (row_of file id entry.now)) }
        ensures refused { IfErr result (λ refusal.
            (own V.kind self.now file kind id ≡ None) × (refusal.cause ≡ Cause.Id)) }
    {
        match self.entry(file, id) {
            Some(entry) if entry.value.kind().is_same(kind) => Ok(entry),
            _ => Err(Refusal { cause: Cause::Id }),
        }
    }
}
