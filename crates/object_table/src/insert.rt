//! How objects come in.

ghost use Rattle.std.specs.Prelude.{◌≡◌, ◌^◌, ◌<◌, None, Some, IsSome, IsOk, IfOk, OnOk, OnErr, IfErr};

use crate::error::InsertError;
use crate::file_objects::Entry;
use crate::table::{ObjectTable, place_of};
use iofd_words::{CallError, Cause, FileNo, ObjId, Refusal};
use std::alloc::Allocator;

impl<V, A: Allocator> ObjectTable<V, A> {
    ghost use Rattle.object_table.specs.Table.{IsWhy, insert_refusal, inserted, reserved_id, row_at, OthersKeepRoom};

    /// Makes room in the file for one more object, and says which id it will get: 1 to 2^31 - 1, and unused
    /// in that file. After it, `insert_reserved` takes no memory and can't fail. Where there is room already
    /// it changes nothing.
    ///
    /// Refused, in this order: Id (11, ENOENT) where the file is closed or unknown; Full (23, ENOSPC) where it has
    /// 65,535 objects. Where nothing refuses, the table may have to grow and find no memory. An error changes
    /// nothing, and no call changes a row.
    pub fn reserve(&mut self, file: FileNo) -> Result<ObjId, CallError>
        ensures id { IfOk result (λ id. reserved_id self.new file ≡ Some id) }
        ensures in_range { IfOk result (λ id. (0 < id.0) × (id.0 < 2 ^ 31)) }
        ensures unused { IfOk result (λ id. row_at self.old file id ≡ None) }
        ensures ok { OnOk result (insert_refusal self.old file ≡ None) }
        ensures why { IfErr result (IsWhy (insert_refusal self.old file)) }
        ensures unchanged { OnErr result (self.new ≡ self.old) }

        ensures rows { self.new.rows ≡ self.old.rows }
        ensures files { self.new.files ≡ self.old.files }
        ensures room { OthersKeepRoom file self.old self.new }
        ensures had_room { IsSome (reserved_id self.old file) → IsOk result × (self.new ≡ self.old) }
    {
        match place_of(file, self.files.len()) {
            Some(place) => self.files[place].reserve(),
            None => Err(CallError::Refused(Refusal { cause: Cause::Id })),
        }
    }

    /// Adds an object where room is reserved, with no user, and gives its id. It takes no memory.
    pub fn insert_reserved(&mut self, file: FileNo, value: V) -> ObjId
        requires { IsSome (reserved_id self.old file) }
        ensures id { reserved_id self.old file ≡ Some result }
        ensures in_range { (0 < result.0) × (result.0 < 2 ^ 31) }
        ensures unused { row_at self.old file result ≡ None }

        ensures rows { self.new.rows ≡ inserted
            (record { file = file; id = result; users = 0; value = value }) self.old.rows }
        ensures files { self.new.files ≡ self.old.files }
        ensures room { OthersKeepRoom file self.old self.new }
    {
        let entry = Entry { users: 0, value };
        self.files[file.0 as usize - 1].add(entry)
    }

    /// Adds an object with no user, and gives its id: 1 to 2^31 - 1, and unused in that file. A fresh file
    /// gives 1, 2, 3; an id that became free comes again.
    ///
    /// Refused, in this order: Id (11, ENOENT) where the file is closed or unknown; Full (23, ENOSPC) where it has
    /// 65,535 objects. Where nothing refuses, the table may have to grow and find no memory. An error hands the
    /// value back and changes nothing: it leaves no room reserved either.
    pub fn insert(&mut self, file: FileNo, value: V) -> Result<ObjId, InsertError<V>>
        ensures in_range { IfOk result (λ id. (0 < id.0) × (id.0 < 2 ^ 31)) }
        ensures unused { IfOk result (λ id. row_at self.old file id ≡ None) }
        ensures ok { OnOk result (insert_refusal self.old file ≡ None) }
        ensures rows { IfOk result (λ id. self.new.rows ≡ inserted
            (record { file = file; id = id; users = 0; value = value }) self.old.rows) }

        ensures why { IfErr result (λ error. IsWhy (insert_refusal self.old file) error.reason) }
        ensures value_returned { IfErr result (λ error. error.value ≡ value) }
        ensures unchanged { OnErr result (self.new ≡ self.old) }

        ensures files { self.new.files ≡ self.old.files }
        ensures room { OthersKeepRoom file self.old self.new }
        ensures had_room { IsSome (reserved_id self.old file) →
            IfOk result (λ id. reserved_id self.old file ≡ Some id) × IsOk result }
    {
        match self.reserve(file) {
            Ok(_) => Ok(self.insert_reserved(file, value)),
            Err(reason) => Err(InsertError { reason, value }),
        }
    }
}
