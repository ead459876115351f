//! Laws of page tables, each the contract of a function that does nothing.

ghost use Rattle.std.specs.Prelude.{ℕ, ◌≡◌, true, List, slice_index};
ghost use Rattle.frame_memory.specs.Pool.{FramePool};
ghost use Rattle.page_table_words.specs.Rows.{MappedPage, TableRow, page_at};
ghost use Rattle.page_table_words.specs.SameTables.{SameTables};
ghost use Rattle.page_table_words.specs.Stands.{TableRoot, TableStands};
ghost use Rattle.page_table_words.specs.Taken.{names};

/// What is done to other frames leaves a page table as it was: where another pool has the same words in each of its
/// table frames, and as many holds on them, it stands there too, with the same rows and pages.
pub fn other_frames_leave_tables()
    ensures { (old new : FramePool) (table : TableRoot) (rows : List TableRow) (pages : List MappedPage) →
        TableStands old table rows pages → SameTables rows old new → TableStands new table rows pages }
{}

/// Pages are told by what is found of each: where a page table stands with some pages, it stands with any others of
/// which the same is found, whatever their order.
pub fn lookups_tell_pages()
    ensures { (pool : FramePool) (table : TableRoot) (rows : List TableRow) (pages others : List MappedPage) →
        TableStands pool table rows pages → ((page : ℕ) → page_at others page ≡ page_at pages page) →
        TableStands pool table rows others }
{}

/// On each frame of a page table stands one hold, so it isn't free.
pub fn table_frames_are_held()
    ensures { (pool : FramePool) (table : TableRoot) (rows : List TableRow) (pages : List MappedPage) (frame : ℕ) →
        TableStands pool table rows pages → names rows frame ≡ true → slice_index pool.holds frame ≡ 1 }
{}
