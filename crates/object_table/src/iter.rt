//! Going over the objects of a file.

ghost use Rattle.std.specs.Prelude.{◌≡◌, IfSome, length};
ghost use Rattle.std.specs.Iterator.{YieldsFirstBy, UpTo, at_most, item_count};
ghost use Rattle.std.specs.Iterator.SizeHint.{IsWithinCount};

use crate::file_objects::Entry;
use crate::table::{ObjectTable, place_of};
use iofd_words::{FileNo, ObjId};
use std::alloc::Allocator;
use std::marker::Model;

/// An object of a file, as `ObjectTable::iter` gives it: a row, with what the object holds behind a reference.
#[derive(Drop)]
pub struct ObjectRef<'a, V> {
    /// The file in whose table it stands.
    pub file: FileNo,
    /// Its id in that file.
    pub id: ObjId,
    /// How many use it.
    pub users: u32,
    /// What it holds.
    pub value: &'a V,
}

/// The objects of a file by rising id, seen as the list of the rows that are left.
#[derive(Drop)]
pub struct Objects<'a, V> {
    file: FileNo,
    // Nothing where the file is closed or unknown.
    left: Option<slab::Iter<'a, Entry<V>>>,
}

impl<'a, V> Model for Objects<'a, V> {
    ghost use Rattle.std.specs.Prelude.{List};
    ghost use Rattle.object_table.specs.Table.{Row};

    ghost Value = { List (Row V) };

    ghost use Rattle.object_table.specs.Layout.{rows_left, HaveIds};

    ghost view = { λ it. rows_left it.file it.left };

    ghost invariant = { λ it. HaveIds it.left };
}

impl<'a, V> Iterator for Objects<'a, V> {
    ghost use Rattle.object_table.specs.Rows.{row_shown};

    type Item = ObjectRef<'a, V>;

    ghost next_gives = { YieldsFirstBy row_shown (λ rest. rest) };

    ghost remaining = { item_count (λ rest. rest) };

    fn next(&mut self) -> Option<ObjectRef<'a, V>> {
        let Some(left) = &mut self.left else {
            return None;
        };
        let (key, entry) = left.next()?;
        Some(ObjectRef {
            file: self.file,
            id: ObjId(key as u32 + 1),
            users: entry.users,
            value: &entry.value,
        })
    }

    fn size_hint(&self) -> (usize, Option<usize>)
        ensures lower { IsWithinCount result.0 (at_most (length self.now)) }
        ensures upper { IfSome result.1 (UpTo (at_most (length self.now))) }
        ensures exact { result ≡ (length self.now, Some (length self.now)) }
    {
        let len = match &self.left {
            Some(left) => left.len(),
            None => 0,
        };
        (len, Some(len))
    }
}

impl<V, A: Allocator> ObjectTable<V, A> {
    ghost use Rattle.object_table.specs.Table.{rows_of};

    /// The objects of the file by rising id. A closed or unknown file has none.
    pub fn iter(&self, file: FileNo) -> Objects<'_, V>
        ensures { result ≡ rows_of self.now file }
    {
        let left = match place_of(file, self.files.len()) {
            Some(place) => self.files[place].iter(),
            None => None,
        };
        Objects { file, left }
    }
}
