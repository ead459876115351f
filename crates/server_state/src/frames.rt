//! The frames that page tables give back.

ghost use Rattle.std.specs.Prelude.{◌≡◌, ◌-◌, IsTrue, OnErr, OnOk, vec_capacity, vec_len};
ghost use Rattle.page_table_set.specs.Removed.{CanRemove};
ghost use Rattle.server_state.specs.Held.{objects_in};
ghost use Rattle.server_state.specs.Step.{IsKnown};
ghost use Rattle.server_state.specs.Tables.{has_page_table};

use crate::state::State;
use iofd_words::{FileNo, FrameNo, NoMemory, ObjId};
use std::alloc::Allocator;

impl<A: Allocator> State<A> {
    /// Takes memory for the numbers of the frames that the file's page table of this id gives back where it goes. None
    /// are listed yet. Memory may be wanting only where there is such a page table.
    pub fn reserve_given(
        &self,
        file: FileNo,
        id: ObjId,
        given: &mut Vec<FrameNo, A>,
    ) -> Result<(), NoMemory>
        requires { IsKnown self.now }
        ensures same { given.new.items ≡ given.old.items }
        ensures room { OnOk result (CanRemove self.now.pool self.now.page_tables.tables file id
            (vec_capacity given.new - vec_len given.new)) }
        ensures memory { OnErr result (IsTrue (has_page_table (objects_in self.now.objects) file id)) }
    {
        let count = self.page_tables.frames(&self.pool, file, id);
        given.reserve(count as usize)?;
        Ok(())
    }
}
