//! Page tables that go.

ghost use Rattle.std.specs.Prelude.{◌≡◌, IsTrue};
ghost use Rattle.page_table_set.specs.PageTables.{are_by_file, hwpt_of};
ghost use Rattle.page_table_set.specs.Removed.{without_hwpt};

use crate::hwpt::Hwpt;
use crate::lookups;
use iofd_words::{FileNo, ObjId};
use std::alloc::Allocator;

/// Takes the file's page table of this id out, if there is one.
pub(crate) fn take<A: Allocator>(tables: &mut Vec<Hwpt, A>, file: FileNo, id: ObjId) -> Option<Hwpt>
    requires { IsTrue (are_by_file tables.old.items) }
    ensures taken { result ≡ hwpt_of tables.old.items file id }
    ensures left { tables.new.items ≡ without_hwpt file id tables.old.items }
{
    let place = lookups::place(tables, file, id)?;
    Some(tables.remove(place))
}
