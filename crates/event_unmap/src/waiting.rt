//! An UNMAP waits: the areas that it names are leaving, and its tries are counted.

ghost use Rattle.std.specs.Prelude.{◌≡◌, map};
ghost use Rattle.event_unmap.specs.Waiting.{waiting};
ghost use Rattle.iofd_words.specs.Areas.{pending_errno};
ghost use Rattle.iofd_words.specs.declared.reply.Reply.TheVariants as reply;
ghost use Rattle.server_state.specs.Held.{areas_at};
ghost use Rattle.server_state.specs.Spaces.{HasAreas, IsOrderly};

use iofd_words::{DeviceSet, Errno, FileNo, ObjId, Reply, Span};
use object_table::ObjectTable;
use server_state::{Held, area_changes};
use std::alloc::Allocator;

/// After so many tries asking again leads nowhere: some device doesn't flush.
const COUNTED_TRIES: u8 = 100;

/// The areas of the address space that lie in the span are leaving, and wait for these devices where they were live.
/// The most tries that one of them had seen are given: all have seen one more, up to a hundred; what is answered after
/// that many says that asking again leads nowhere.
pub(crate) fn wait<A: Allocator>(
    table: &mut ObjectTable<Held<A>, A>,
    file: FileNo,
    ioas: ObjId,
    span: Span,
    owed: &DeviceSet,
    most: u8,
) -> Reply
    ensures areas { IsOrderly table.old → HasAreas file ioas
        (map (waiting span most owed.now) (areas_at table.old.rows file ioas)) table.old table.new }
    ensures told { result ≡ reply.Pending (pending_errno most) }
{
    area_changes::mark_leaving(table, file, ioas, span, owed);
    if most >= COUNTED_TRIES {
        return Reply::Pending(Errno::EDEADLOCK);
    }
    area_changes::set_tries(table, file, ioas, span, most + 1);
    Reply::Pending(Errno::EAGAIN)
}
