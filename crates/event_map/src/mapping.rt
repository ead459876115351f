//! The pages of an area that comes are mapped in the page tables over its address space.

ghost use Rattle.std.specs.Prelude.{◌≡◌, ◌-◌, true, false, [], vec_capacity, vec_len};
ghost use Rattle.page_table_set.specs.OverSpans.{hwpts_over};
ghost use Rattle.page_table_set.specs.PageTables.{IfAllStand};
ghost use Rattle.event_map.specs.AreaMapped.{CanMapArea, IsAreaMapped};

use iofd_words::{Area, FrameNo};
use server_state::State;
use std::alloc::Allocator;

/// Maps the pages of a live area in each page table over its address space: each leads to the frame at which it is
/// pinned. The tables that these lack are in the least free frames, which are appended to `taken`, where there is room.
/// Where no page table is over the address space nothing changes. Every other page stays, and each frame in which no
/// table is. It takes no memory.
pub(crate) fn map_area<A: Allocator>(
    state: &mut State<A>,
    area: &Area,
    translated: bool,
    taken: &mut Vec<FrameNo, A>,
)
    requires can { translated ≡ true → CanMapArea state.old.pool state.old.page_tables.tables state.old.memory area.now
        (vec_capacity taken.old - vec_len taken.old) }
    requires none { translated ≡ false → hwpts_over area.now.file area.now.ioas state.old.page_tables.tables ≡ [] }
    ensures same { state.new ≡ record state.old { pool = state.new.pool } }
    ensures mapped { IfAllStand state.old.pool state.old.page_tables.tables (IsAreaMapped state.old.memory area.now
        state.old.page_tables.tables state.old.pool state.new.pool taken.old.items taken.new.items) }
{
    if translated {
        area.span.facts();
        state.page_tables.map(
            &mut state.pool,
            area.file,
            area.ioas,
            area.span,
            state.memory.frames(area.memory),
            area.rights,
            taken,
        );
    }
}
