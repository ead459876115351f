//! How many page tables stand over an address space and how many access objects are attached to it, and how many
//! devices translate by a page table, is counted with the object as its users.

ghost use Rattle.std.specs.Prelude.{◌≡◌, ◌<◌, ◌+◌, ◌-◌, IfSome, None};
ghost use Rattle.object_table.specs.Table.{changed_at, with_users};
ghost use Rattle.server_state.specs.Held.{own};

use crate::held::Held;
use iofd_words::{FileNo, ObjId};
use object_table::{Kind, ObjectTable};
use std::alloc::Allocator;

/// Counts one user more of the file's object of this kind and id. There are fewer than 2^32 - 1, since a file has at
/// most 65,535 objects, and there are at most 256 devices. Without such an object nothing changes.
pub fn add_user<A: Allocator>(
    table: &mut ObjectTable<Held<A>, A>,
    file: FileNo,
    kind: Kind,
    id: ObjId,
)
    ensures rows { IfSome (own table.old file kind id) (λ row. row.users < 4294967295
        → table.new.rows ≡ changed_at file id (with_users (row.users + 1)) table.old.rows) }
    ensures full { IfSome (own table.old file kind id) (λ row. row.users ≡ 4294967295 → table.new ≡ table.old) }
    ensures absent { own table.old file kind id ≡ None → table.new ≡ table.old }
    ensures others { table.new ≡ record table.old { rows = table.new.rows } }
{
    match table.users(file, kind, id) {
        Ok(users) if users < u32::MAX => {
            match table.add_user(file, kind, id) {
                Ok(()) => (),
                Err(_) => (),
            }
        }
        Ok(_) => (),
        Err(_) => (),
    }
}

/// Counts one user fewer of the file's object of this kind and id, which has some. Without such an object, or where it
/// has none, nothing changes.
pub fn remove_user<A: Allocator>(
    table: &mut ObjectTable<Held<A>, A>,
    file: FileNo,
    kind: Kind,
    id: ObjId,
)
    ensures rows { IfSome (own table.old file kind id) (λ row. 0 < row.users
        → table.new.rows ≡ changed_at file id (with_users (row.users - 1)) table.old.rows) }
    ensures unused { IfSome (own table.old file kind id) (λ row. row.users ≡ 0 → table.new ≡ table.old) }
    ensures absent { own table.old file kind id ≡ None → table.new ≡ table.old }
    ensures others { table.new ≡ record table.old { rows = table.new.rows } }
{
    match table.users(file, kind, id) {
        Ok(users) if users > 0 => {
            match table.remove_user(file, kind, id) {
                Ok(()) => (),
                Err(_) => (),
            }
        }
        Ok(_) => (),
        Err(_) => (),
    }
}
