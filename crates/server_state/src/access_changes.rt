//! An access object is attached to an address space, or detached from it: its address space has a user more or fewer.

ghost use Rattle.std.specs.Prelude.{◌≡◌, ◌<◌, ◌+◌, ◌-◌, Some, None, true};
ghost use Rattle.iofd_words.specs.Objects.{has_access, has_ioas, is_access};
ghost use Rattle.server_state.specs.Accesses.{HasAccess, one_at};
ghost use Rattle.server_state.specs.Held.{kind_in, objects_in};
ghost use Rattle.server_state.specs.Spaces.{IsOrderly};
ghost use Rattle.server_state.specs.Users.{users_at};
ghost use Rattle.server_state.specs.declared.held.Held.TheVariants as of_held;

use crate::counts;
use crate::held::Held;
use iofd_words::{FileNo, ObjId};
use object_table::{Kind, ObjectTable};
use std::alloc::Allocator;

/// Attaches the file's access object of this id to its address space of the other id, which is counted one user more.
/// It takes no memory.
pub fn attach<A: Allocator>(
    table: &mut ObjectTable<Held<A>, A>,
    file: FileNo,
    id: ObjId,
    ioas: ObjId,
)
    ensures { IsOrderly table.old → has_access (objects_in table.old) file id ≡ true
        → has_ioas (objects_in table.old) file ioas ≡ true → users_at table.old.rows file ioas < 4294967295
        → HasAccess file id (Some ioas) (λ f i. one_at file ioas f i + users_at table.old.rows f i)
        table.old table.new }
{
    set_attached(table, file, id, Some(ioas));
    counts::add_user(table, file, Kind::Ioas, ioas);
}

/// Detaches the file's access object of this id from its address space of the other id, which is counted one user
/// fewer. It takes no memory.
pub fn detach<A: Allocator>(
    table: &mut ObjectTable<Held<A>, A>,
    file: FileNo,
    id: ObjId,
    ioas: ObjId,
)
    ensures { IsOrderly table.old → has_access (objects_in table.old) file id ≡ true
        → has_ioas (objects_in table.old) file ioas ≡ true → 0 < users_at table.old.rows file ioas
        → HasAccess file id None (λ f i. users_at table.old.rows f i - one_at file ioas f i) table.old table.new }
{
    set_attached(table, file, id, None);
    counts::remove_user(table, file, Kind::Ioas, ioas);
}

/// The file's access object of this id is attached to this address space from now on, or to none.
fn set_attached<A: Allocator>(
    table: &mut ObjectTable<Held<A>, A>,
    file: FileNo,
    id: ObjId,
    attached: Option<ObjId>,
)
    ensures { IsOrderly table.old → has_access (objects_in table.old) file id ≡ true
        → HasAccess file id attached (users_at table.old.rows) table.old table.new }
{
    match table.get_mut(file, Kind::Access, id) {
        Ok(held) => set_held(held, attached),
        Err(_) => (),
    }
}

fn set_held<A: Allocator>(held: &mut Held<A>, attached: Option<ObjId>)
    ensures { is_access (kind_in held.old) ≡ true → held.new ≡ of_held.Access attached }
{
    if let Held::Access(ioas) = held {
        *ioas = attached;
    }
}
