//! A law of page tables that no call rests on: the contract of a function that does nothing.

ghost use Rattle.std.specs.Prelude.{ℕ, ◌≡◌, ◌≤◌, ◌+◌, List};
ghost use Rattle.iofd_words.specs.Bounds.{Bounds};
ghost use Rattle.frame_memory.specs.Pool.{FramePool, free_count};
ghost use Rattle.iofd_words.specs.Levels.{levels_of};
ghost use Rattle.page_table_words.specs.Mapped.{IsBelow};
ghost use Rattle.page_table_words.specs.Needed.{HasPage, needed};
ghost use Rattle.page_table_words.specs.Rows.{MappedPage, TableRow};
ghost use Rattle.page_table_words.specs.Stands.{TableRoot, TableStands};
ghost use Rattle.page_table_words.specs.Taken.{missing, with_tables};

/// While a page of the spans is mapped, just so many frames are taken as they then need fewer tables. So all their
/// pages can be mapped where as many frames are free as they need.
pub fn mapping_takes_what_is_needed()
    ensures { (pool : FramePool) (table : TableRoot) (rows : List TableRow) (pages : List MappedPage) (page : ℕ)
        (spans : List Bounds) → TableStands pool table rows pages → IsBelow table.width page →
        HasPage spans page →
        missing rows (levels_of table.width) page ≤ free_count pool.holds →
        needed (with_tables rows (levels_of table.width) page pool.holds) (levels_of table.width) spans
        + missing rows (levels_of table.width) page
        ≡ needed rows (levels_of table.width) spans }
{}
