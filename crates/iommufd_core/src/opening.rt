//! What is kept at the opening: all frames free, all files open and empty.

ghost use Rattle.std.specs.Prelude.{◌≡◌, IfOk};
ghost use Rattle.iofd_words.specs.World.{opening};
ghost use Rattle.server_state.specs.Shows.{Shows};

use dirty_bitmap::DirtyTables;
use frame_memory::Pool;
use held_pins::HeldPins;
use iofd_words::{Config, NoMemory};
use iova_ranges::AllowedTable;
use object_table::ObjectTable;
use page_table_set::PageTables;
use server_state::State;
use std::alloc::Allocator;
use user_memory::UserMemory;

/// What is kept at the opening. It fails only where memory does.
pub(crate) fn opened<A: Allocator + Copy, B: Allocator>(
    alloc: A,
    config: &Config<B>,
) -> Result<State<A>, NoMemory>
    ensures config { IfOk result (λ state. state.config ≡ config.now) }
    ensures shows { IfOk result (λ state. Shows (opening config.now) state) }
{
    let pool = config.pool();
    let files = config.files().len() as u16;
    Ok(State {
        alloc,
        config: config.copied(alloc)?,
        objects: ObjectTable::new(alloc, files)?,
        memory: UserMemory::new(alloc, config.users())?,
        pool: Pool::new(alloc, pool)?,
        // Those that take no memory come last: an error has fewer values to let go.
        allowed: AllowedTable::new(alloc),
        bindings: Vec::new(alloc),
        page_tables: PageTables::new(alloc),
        attachments: Vec::new(alloc),
        access_pins: HeldPins::new(alloc),
        dirty: DirtyTables::new(alloc),
    })
}
