//! Tracked page tables: the marks are the pages that devices wrote, and a report tells and clears just those of its
//! span. Each is the contract of a function that does nothing.

ghost use Rattle.std.specs.Prelude.{◌≡◌, ◌↔◌, ℕ, Bool, true, false, Some, List, [], ◌∷◌, ◌++◌, Contains, slice_get};
ghost use Rattle.iofd_promises.specs.Marks.{HasTable, IsAskedFor, IsMarked, IsTold, IsTracked, IsTurnedOn};
ghost use Rattle.iofd_promises.specs.Marks.{IsWritten};
ghost use Rattle.iofd_words.specs.Dirty.{TrackedTable};
ghost use Rattle.iofd_steps.specs.Look.{answers_to};
ghost use Rattle.iofd_steps.specs.Run.{IsRun, world_of};
ghost use Rattle.iofd_words.specs.Record.{Record};
ghost use Rattle.iofd_words.specs.Settings.{Settings};
ghost use Rattle.iofd_words.specs.declared.event.DirtyRequest.{DirtyRequest};
ghost use Rattle.iofd_words.specs.declared.event.Event.TheVariants as event;
ghost use Rattle.iofd_words.specs.declared.numbers.FileNo.{FileNo};
ghost use Rattle.iofd_words.specs.declared.numbers.ObjId.{ObjId};
ghost use Rattle.iofd_words.specs.declared.query.Answer.TheVariants as answer;
ghost use Rattle.iofd_words.specs.declared.query.Query.TheVariants as query;
ghost use Rattle.iofd_words.specs.declared.reply.Reply.TheVariants as reply;

use std::alloc::Allocator;

/// In every run, a page that a device wrote through a tracked page table is marked until a report clears it, tracking
/// is turned on or off, or the page table goes. So what is written between two reports is told by the second.
pub fn a_write_is_never_lost<A: Allocator>()
    ensures { (settings : Settings) (records : List (Record A)) (file : FileNo) (hwpt : ObjId) (page : ℕ) →
        IsRun settings records → IsWritten settings records file hwpt page →
        IsMarked (world_of settings records) file hwpt page }
{}

/// And no other page is: of a page that is marked a record of the run wrote it through that page table while that was
/// tracked, and since then none cleared it or turned tracking on or off.
pub fn a_page_is_marked_only_by_a_write<A: Allocator>()
    ensures { (settings : Settings) (records : List (Record A)) (file : FileNo) (hwpt : ObjId) (page : ℕ) →
        IsRun settings records → IsMarked (world_of settings records) file hwpt page →
        IsWritten settings records file hwpt page }
{}

/// In every run, a page table is tracked just where it was turned on, and since then was neither turned on or off nor
/// went.
pub fn a_table_is_tracked_since_it_was_turned_on<A: Allocator>()
    ensures { (settings : Settings) (records : List (Record A)) (file : FileNo) (hwpt : ObjId) →
        IsRun settings records →
        IsTracked (world_of settings records) file hwpt ↔ IsTurnedOn settings records file hwpt }
{}

/// In every run, what is tracked is a page table that is there, and it has one row.
pub fn tracked_tables_are_there<A: Allocator>()
    ensures there { (settings : Settings) (records : List (Record A)) (file : FileNo) (hwpt : ObjId) →
        IsRun settings records → IsTracked (world_of settings records) file hwpt →
        HasTable (world_of settings records) file hwpt }
    ensures once { (settings : Settings) (records : List (Record A)) (i j : ℕ) (a b : TrackedTable) →
        IsRun settings records → slice_get (world_of settings records).tracked i ≡ Some a →
        slice_get (world_of settings records).tracked j ≡ Some b → a.file ≡ b.file → a.hwpt ≡ b.hwpt → i ≡ j }
{}

/// When tracking is turned on or off no page is marked.
pub fn turning_on_clears<A: Allocator>()
    ensures { (settings : Settings) (before : List (Record A)) (r : Record A) (file : FileNo) (hwpt : ObjId)
        (on : Bool) (page : ℕ) → IsRun settings (before ++ r ∷ []) → r.event ≡ event.DirtyEnable file hwpt on →
        r.reply ≡ reply.Done → IsMarked (world_of settings (before ++ r ∷ [])) file hwpt page → ⊥ }
{}

/// After a report that clears, the same span is told without a page: by a question, and by a report that clears again.
pub fn what_was_cleared_is_told_once<A: Allocator>()
    ensures asked { (settings : Settings) (before : List (Record A)) (r : Record A) (file : FileNo)
        (request : DirtyRequest) (words : List ℕ) →
        IsRun settings (before ++ r ∷ []) → r.event ≡ event.DirtyClear file request →
        r.reply ≡ reply.Dirty words →
        answers_to settings (before ++ r ∷ []) (query.Dirty file request)
        ≡ answer.Dirty (0 ∷ 0 ∷ 0 ∷ 0 ∷ []) ∷ [] }
    ensures cleared_again { (settings : Settings) (before : List (Record A)) (r s : Record A) (file : FileNo)
        (request : DirtyRequest) (words : List ℕ) →
        IsRun settings ((before ++ r ∷ []) ++ s ∷ []) → r.event ≡ event.DirtyClear file request →
        r.reply ≡ reply.Dirty words → s.event ≡ event.DirtyClear file request →
        s.reply ≡ reply.Dirty (0 ∷ 0 ∷ 0 ∷ 0 ∷ []) }
{}

/// A report that clears takes the marks of its span's pages in its page table away, and no other mark; it marks none.
pub fn a_report_clears_just_its_span<A: Allocator>()
    ensures { (settings : Settings) (before : List (Record A)) (r : Record A) (file : FileNo)
        (request : DirtyRequest) (words : List ℕ) (own : FileNo) (hwpt : ObjId) (page : ℕ) →
        IsRun settings (before ++ r ∷ []) → r.event ≡ event.DirtyClear file request →
        r.reply ≡ reply.Dirty words →
        IsMarked (world_of settings (before ++ r ∷ [])) own hwpt page
        ↔ (IsMarked (world_of settings before) own hwpt page
        × (own ≡ file → hwpt ≡ request.hwpt → IsAskedFor request page → ⊥)) }
{}

/// A report tells just the marked pages of its span, whether it clears or is a question: bit k of word j is the page
/// 64 * j + k places behind the first.
pub fn a_report_tells_the_marked_pages<A: Allocator>()
    ensures clearing { (settings : Settings) (before : List (Record A)) (r : Record A) (file : FileNo)
        (request : DirtyRequest) (words : List ℕ) (page : ℕ) →
        IsRun settings (before ++ r ∷ []) → r.event ≡ event.DirtyClear file request →
        r.reply ≡ reply.Dirty words → IsTold words request page
        ↔ (IsMarked (world_of settings before) file request.hwpt page × IsAskedFor request page) }
    ensures asking { (settings : Settings) (records : List (Record A)) (file : FileNo) (request : DirtyRequest)
        (words : List ℕ) (page : ℕ) → IsRun settings records →
        Contains (answers_to settings records (query.Dirty file request)) (answer.Dirty words) →
        IsTold words request page
        ↔ (IsMarked (world_of settings records) file request.hwpt page × IsAskedFor request page) }
{}
