//! Laws of page tables, each the contract of a function that does nothing.

ghost use Rattle.std.specs.Prelude.{ℕ, ◌≡◌, Option, Some, List};
ghost use Rattle.iofd_rows.proofs.Each.{IsIn};
ghost use Rattle.frame_memory.specs.Pool.{FramePool};
ghost use Rattle.iofd_words.specs.TablePlaces.{TablePlace, has_table};
ghost use Rattle.iofd_words.specs.declared.numbers.FileNo.{FileNo};
ghost use Rattle.iofd_words.specs.declared.numbers.ObjId.{ObjId};
ghost use Rattle.iofd_words.specs.declared.rows.Object.{Object};
ghost use Rattle.iofd_words.specs.declared.rows.TableFrame.{TableFrame};
ghost use Rattle.page_table_words.specs.Rows.{MappedPage};
ghost use Rattle.page_table_set.specs.Kept.{has_kept};
ghost use Rattle.page_table_set.specs.PageTables.{AllStand, Hwpt, hwpt_of};
ghost use Rattle.page_table_set.specs.SameFrames.{SameFrames};

/// The words of the pool tell which tables a page table has: those of which it has rows.
pub fn words_tell_tables()
    ensures { (pool : FramePool) (frames : List TableFrame) (leads : Object → ℕ → Option MappedPage)
        (tables : List Hwpt) (file : FileNo) (id : ObjId) (place : TablePlace) (h : Hwpt) →
        AllStand pool frames leads tables → hwpt_of tables file id ≡ Some h →
        has_kept pool tables file id place ≡ has_table frames file id place }
{}

/// What is done to other frames leaves all page tables as they were: where another pool has the same bytes in each
/// frame in which a table is, and as many holds on it, they stand there too, with the same rows, and their pages lead
/// where they did.
pub fn other_frames_leave_page_tables()
    ensures { (old new : FramePool) (frames : List TableFrame) (leads : Object → ℕ → Option MappedPage)
        (tables : List Hwpt) →
        AllStand old frames leads tables → SameFrames frames old new → AllStand new frames leads tables }
{}

/// Page tables are told by where each of their pages leads: where they stand in one way, they stand in any other in
/// which the same is said of each page.
pub fn leads_tell_page_tables()
    ensures { (pool : FramePool) (frames : List TableFrame) (leads others : Object → ℕ → Option MappedPage)
        (tables : List Hwpt) → AllStand pool frames leads tables →
        ((h : Hwpt) → IsIn tables h → (page : ℕ) → others h.object page ≡ leads h.object page) →
        AllStand pool frames others tables }
{}
