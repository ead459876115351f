//! How objects are written: what they hold, and how many use them.

ghost use Rattle.std.specs.Prelude.{◌≡◌, ◌<◌, ◌+◌, ◌-◌, None, Some, IsSomeAnd, IfOk};
ghost use Rattle.std.specs.Prelude.{OnOk, OnErr, IfErr};
ghost use Rattle.std.specs.Option.{option_map, ForSome};
ghost use Rattle.std.specs.Borrow.{sem};

use crate::kind::{Kind, Typed};
use crate::table::ObjectTable;
use iofd_words::{Cause, FileNo, ObjId, Refusal};
use std::alloc::Allocator;

impl<V: Typed, A: Allocator> ObjectTable<V, A> {
    ghost use Rattle.object_table.specs.Table.{own, changed_at, with_users};
    ghost use Rattle.object_table.specs.Lends.{lends_get};

    /// What the object holds, for writing: a value of another kind makes it an object of that kind. Refused by
    /// 11 (ENOENT) as `get`, and then nothing changes.
    pub fn get_mut(&mut self, file: FileNo, kind: Kind, id: ObjId) -> Result<&mut V, Refusal>
        ensures* writes_back { sem 𝓛 (lends_get V.row A.row A.Allocator self.entry file id result) }
        ensures ok { IfOk result (λ value.
            option_map (λ row. row.value) (own V.kind self.old file kind id) ≡ Some value.now) }
        ensures refused { IfErr result (λ refusal.
            (own V.kind self.old file kind id ≡ None) × (refusal.cause ≡ Cause.Id)) }
    {
        self.own_entry(file, kind, id)?;
        Ok(self.value_mut(file, id))
    }

    /// Counts one more user of the object, which has fewer than 2^32 - 1 (`users` is the test). Refused by
    /// 11 (ENOENT) as `get`, and then nothing changes.
    pub fn add_user(&mut self, file: FileNo, kind: Kind, id: ObjId) -> Result<(), Refusal>
        requires { ForSome (own V.kind self.old file kind id) (λ row. row.users < 4294967295) }
        ensures ok { OnOk result (IsSomeAnd (own V.kind self.old file kind id) (λ row. self.new ≡ record self.old {
          rows = changed_at file id (with_users (row.users + 1)) self.old.rows;
        })) }
        ensures refused { IfErr result (λ refusal.
            (own V.kind self.old file kind id ≡ None) × (refusal.cause ≡ Cause.Id)) }
        ensures unchanged { OnErr result (self.new ≡ self.old) }
    {
        self.own_entry(file, kind, id)?;
        *self.users_mut(file, id) += 1;
        Ok(())
    }

    /// Counts one user of the object fewer, which has some (`users` is the test). Refused by 11 (ENOENT)
    /// as `get`, and then nothing changes.
    pub fn remove_user(&mut self, file: FileNo, kind: Kind, id: ObjId) -> Result<(), Refusal>
        requires { ForSome (own V.kind self.old file kind id) (λ row. 0 < row.users) }
        ensures ok { OnOk result (IsSomeAnd (own V.kind self.old file kind id) (λ row. self.new ≡ record self.old {
          rows = changed_at file id (with_users (row.users - 1)) self.old.rows;
        })) }
        ensures refused { IfErr result (λ refusal.
            (own V.kind self.old file kind id ≡ None) × (refusal.cause ≡ Cause.Id)) }
        ensures unchanged { OnErr result (self.new ≡ self.old) }
    {
        self.own_entry(file, kind, id)?;
        *self.users_mut(file, id) -= 1;
        Ok(())
    }
}
