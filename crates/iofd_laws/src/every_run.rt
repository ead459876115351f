//! What is true of every run, each the contract of a function that does nothing.

ghost use Rattle.std.specs.Prelude.{◌≡◌, ◌≢◌, ◌≤◌, ℕ, false, Some, None, List, [], ◌∷◌};
ghost use Rattle.std.specs.Prelude.{◌++◌, length, Contains, IsTrue};
ghost use Rattle.iofd_rows.specs.Debts.{DebtsAttached};
ghost use Rattle.iofd_runs.specs.Apart.{are_apart};
ghost use Rattle.iofd_runs.specs.Fits.{RowsFit};
ghost use Rattle.iofd_runs.specs.InUsable.{AreasUsable};
ghost use Rattle.iofd_runs.specs.Owned.{AreasOwned};
ghost use Rattle.iofd_runs.specs.Rising.{objects_rise};
ghost use Rattle.iofd_laws.specs.Laws.{chooses_address, have_own_frames, has_memory, held_in, HasRecord};
ghost use Rattle.iofd_laws.specs.Laws.{IsOfAnother, PassesLimit, SameMemory, TablesAlone, TablesServe, WasFree};
ghost use Rattle.iofd_laws.specs.Laws.{rows_of, starts_rise, tables_of};
ghost use Rattle.iofd_rows.specs.Ids.{AreBoundOnce, have_own_ids};
ghost use Rattle.iofd_laws.specs.Laws.{Outlives, pin_moves};
ghost use Rattle.iofd_rows.specs.Pinned.{ArePinned};
ghost use Rattle.iofd_steps.specs.After.{changed};
ghost use Rattle.iofd_steps.specs.Answers.{Answers};
ghost use Rattle.iofd_words.specs.Areas.{is_touched};
ghost use Rattle.iofd_refusals.specs.Checks.{refusal};
ghost use Rattle.iofd_words.specs.Files.{limit_of};
ghost use Rattle.iofd_steps.specs.Look.{answers_to};
ghost use Rattle.iofd_words.specs.Pins.{ObjectPage};
ghost use Rattle.iofd_words.specs.Policy.{outcomes};
ghost use Rattle.iofd_steps.specs.Run.{IsRun, after, world_of};
ghost use Rattle.iofd_words.specs.Record.{Record};
ghost use Rattle.iofd_words.specs.Settings.{Settings};
ghost use Rattle.iofd_words.specs.Tables.{MovesTables};
ghost use Rattle.iofd_words.specs.declared.event.Event.{Event};
ghost use Rattle.iofd_words.specs.declared.event.Event.TheVariants as event;
ghost use Rattle.iofd_words.specs.declared.event.UnmapRequest.{UnmapRequest};
ghost use Rattle.iofd_words.specs.declared.fault.AccessKind.{AccessKind};
ghost use Rattle.iofd_words.specs.declared.numbers.DeviceNo.{DeviceNo};
ghost use Rattle.iofd_words.specs.declared.numbers.FileNo.{FileNo};
ghost use Rattle.iofd_words.specs.declared.numbers.FrameNo.{FrameNo};
ghost use Rattle.iofd_words.specs.declared.numbers.Iova.{Iova};
ghost use Rattle.iofd_words.specs.declared.numbers.ObjId.{ObjId};
ghost use Rattle.iofd_words.specs.declared.numbers.UserNo.{UserNo};
ghost use Rattle.iofd_words.specs.declared.query.Query.TheVariants.{AccessRead};
ghost use Rattle.iofd_words.specs.declared.refusal.Cause.TheVariants as cause;
ghost use Rattle.iofd_words.specs.declared.reply.Reply.{Reply};
ghost use Rattle.iofd_words.specs.declared.reply.Reply.TheVariants as reply;
ghost use Rattle.iofd_words.specs.declared.rows.Area.{Area};

use std::alloc::Allocator;

/// In every run, two areas of one address space never overlap, leaving ones included.
pub fn areas_never_overlap<A: Allocator>()
    ensures { (settings : Settings) (records : List (Record A)) → IsRun settings records →
        IsTrue (are_apart (world_of settings records).areas) }
{}

/// In every run, the areas of an address space stand by rising start.
pub fn areas_stand_by_start<A: Allocator>()
    ensures { (settings : Settings) (records : List (Record A)) → IsRun settings records →
        IsTrue (starts_rise (world_of settings records).areas) }
{}

/// In every run, a frame is the page of at most one user page.
pub fn user_pages_have_own_frames<A: Allocator>()
    ensures { (settings : Settings) (records : List (Record A)) → IsRun settings records →
        IsTrue (have_own_frames (world_of settings records).user_pages) }
{}

/// In every run, a frame that is given out, to a user or for a table, is one of the pool that no user, no pin and no
/// page table had.
pub fn only_free_frames_are_given_out<A: Allocator>()
    ensures to_users { (settings : Settings) (before : List (Record A)) (r : Record A) (later : List (Record A))
        (frame : FrameNo) →
        IsRun settings (before ++ r ∷ later) → r.reply ≡ reply.Frame frame →
        WasFree (world_of settings before) frame }
    ensures for_tables { (settings : Settings) (before : List (Record A)) (r : Record A) (later : List (Record A))
        (frame : FrameNo) →
        IsRun settings (before ++ r ∷ later) → Contains r.taken frame → WasFree (world_of settings before) frame }
{}

/// In every run, a frame that holds a table is one of the pool and holds no other table, and no user's page and no pin
/// has it.
pub fn tables_have_own_frames<A: Allocator>()
    ensures { (settings : Settings) (records : List (Record A)) → IsRun settings records →
        TablesAlone (world_of settings records) }
{}

/// In every run, each page table has its root, and on each level below it the table through which an address of a live
/// area of its address space goes; and each table is of a page table that is there.
pub fn page_tables_have_what_they_need<A: Allocator>()
    ensures { (settings : Settings) (records : List (Record A)) → IsRun settings records →
        TablesServe (world_of settings records) }
{}

/// In every run, an id is that of at most one object of a file.
pub fn ids_are_unique<A: Allocator>()
    ensures { (settings : Settings) (records : List (Record A)) → IsRun settings records →
        IsTrue (have_own_ids (world_of settings records).objects) }
{}

/// In every run, the objects stand by rising file, and those of one file by rising id.
pub fn objects_stand_by_file_and_id<A: Allocator>()
    ensures { (settings : Settings) (records : List (Record A)) → IsRun settings records →
        IsTrue (objects_rise (world_of settings records).objects) }
{}

/// In every run, a device is bound by at most one object, and so to at most one file.
pub fn devices_are_bound_once<A: Allocator>()
    ensures { (settings : Settings) (records : List (Record A)) → IsRun settings records →
        AreBoundOnce (world_of settings records).objects }
{}

/// In every run, each page that is to be pinned has one pin, and no other page has any. No two memory objects have one
/// number, each area has a memory object of its size, and each memory object has an area. Who holds an access pin is
/// attached, with areas under the whole of it, and access objects are attached to address spaces of their own file.
pub fn pins_are_those_of_pinned_pages<A: Allocator>()
    ensures { (settings : Settings) (records : List (Record A)) → IsRun settings records →
        ArePinned (length records) (world_of settings records) }
{}

/// A record changes the frame of no page that stays pinned, whatever its user does. A page that becomes pinned has the
/// frame that is the page's in its user's memory then.
pub fn pins_keep_their_frames<A: Allocator>()
    ensures { (settings : Settings) (before : List (Record A)) (r : Record A) (page : ObjectPage)
        → IsRun settings before →
        pin_moves page (world_of settings before) (after (length before) (world_of settings before) r) }
{}

/// In every run, something may come of each access of a device: it passes, or there is a reason for which it is denied.
pub fn every_access_has_an_answer<A: Allocator>()
    ensures { (settings : Settings) (records : List (Record A)) (device : DeviceNo) (address : ℕ) (right : AccessKind) →
        IsRun settings records → outcomes (world_of settings records) device address right ≢ [] }
{}

/// In every run, a read of an access object has an answer: where nothing refuses it, a pin of that access object
/// reaches a frame, whose bytes are answered.
pub fn every_held_read_has_an_answer<A: Allocator>()
    ensures { (settings : Settings) (records : List (Record A)) (file : FileNo) (access : ObjId) (iova : Iova)
        (len : ℕ) → IsRun settings records →
        answers_to settings records (AccessRead file access iova len) ≢ [] }
{}

/// In every run, an event that nothing refuses has a lawful record: an answer, and frames for the tables that it needs.
/// So where the pool has too few frames, that is always told by a refusal.
pub fn every_event_has_an_answer<A: Allocator>()
    ensures { (settings : Settings) (records : List (Record A)) (event : Event A) → IsRun settings records →
        refusal (world_of settings records) event ≡ None →
        HasRecord (length records) (world_of settings records) event }
{}

/// In every run, an event that is refused for want of frames could not be carried out: with none of its answers are
/// there frames for all tables that would be needed then, or one for a user. Of a MAP or a COPY that leaves its
/// address to the server this isn't said: at another address than the least it might need fewer tables.
pub fn refusals_for_frames_are_due<A: Allocator>()
    ensures { (settings : Settings) (records : List (Record A)) (event : Event A) (answer : Reply)
        (taken given : List FrameNo) → IsRun settings records →
        refusal (world_of settings records) event ≡ Some cause.Frames → chooses_address event ≡ false →
        Answers (world_of settings records) event answer →
        MovesTables (world_of settings records) (changed (length records) (world_of settings records) event answer)
        event answer taken given → ⊥ }
{}

/// In every run, an event that is refused for the account could not be carried out within the limit: with each of its
/// answers, at whatever address a server might choose, the user of its file would have more pinned pages than its limit
/// allows.
pub fn refusals_for_the_account_are_due<A: Allocator>()
    ensures { (settings : Settings) (records : List (Record A)) (event : Event A) (answer : Reply) →
        IsRun settings records → refusal (world_of settings records) event ≡ Some cause.Account →
        Answers (world_of settings records) event answer →
        PassesLimit (world_of settings records)
        (changed (length records) (world_of settings records) event answer) event }
{}

/// In every run, each area begins at a page, is of whole pages and no longer than a user's memory, attachments rise by
/// device, and users and pins have frames of the pool. Each object is of an open file, and each bound or attached
/// device is one of the settings.
pub fn rows_fit<A: Allocator>()
    ensures { (settings : Settings) (records : List (Record A)) → IsRun settings records →
        RowsFit (world_of settings records) }
{}

/// In every run, the memory object under an area is of the user of the area's file.
pub fn areas_are_of_the_files_user<A: Allocator>()
    ensures { (settings : Settings) (records : List (Record A)) → IsRun settings records →
        AreasOwned (world_of settings records) }
{}

/// In every run, each area lies in addresses that its address space can use: none that a page table of it doesn't
/// translate, and none that a device attached to it keeps for itself.
pub fn areas_are_usable<A: Allocator>()
    ensures { (settings : Settings) (records : List (Record A)) → IsRun settings records →
        AreasUsable (world_of settings records) }
{}

/// In every run, no user has more pinned pages than its limit allows.
pub fn limits_are_kept<A: Allocator>()
    ensures { (settings : Settings) (records : List (Record A)) (user : UserNo) (limit : ℕ) →
        IsRun settings records →
        limit_of settings user ≡ Some limit → held_in (world_of settings records) user ≤ limit }
{}

/// A record changes no object, area or attachment of a file that its event isn't of, and doesn't close it: not by a
/// command of another file, nor by an event of a device that is bound to another file.
pub fn files_are_apart<A: Allocator>()
    ensures { (settings : Settings) (before : List (Record A)) (r : Record A) (other : FileNo) →
        IsRun settings before →
        IsOfAnother (world_of settings before) r.event other →
        rows_of other (after (length before) (world_of settings before) r)
        ≡ rows_of other (world_of settings before) }
{}

/// In every run, a record changes no memory object under an area of a file that its event isn't of, and no pin of its
/// pages.
pub fn memory_of_files_is_apart<A: Allocator>()
    ensures { (settings : Settings) (before : List (Record A)) (r : Record A) (other : FileNo) (number : ℕ) →
        IsRun settings (before ++ r ∷ []) → IsOfAnother (world_of settings before) r.event other →
        IsTrue (has_memory other (world_of settings before) number) →
        SameMemory number (world_of settings before) (after (length before) (world_of settings before) r) }
{}

/// In every run, a record leaves the tables of a file that its event isn't of as they are: none comes, none goes, and
/// each stays in its frame.
pub fn tables_of_files_are_apart<A: Allocator>()
    ensures { (settings : Settings) (before : List (Record A)) (r : Record A) (file : FileNo) →
        IsRun settings (before ++ r ∷ []) → IsOfAnother (world_of settings before) r.event file →
        tables_of file (after (length before) (world_of settings before) r) ≡
        tables_of file (world_of settings before) }
{}

/// In every run, an UNMAP leaves each area that it doesn't touch as it is, and its memory object, also where other
/// areas over that object go. Where the area's address space has a page table, each page of the object stays pinned at
/// its frame.
pub fn shared_pages_outlive_an_unmap<A: Allocator>()
    ensures { (settings : Settings) (before : List (Record A)) (r : Record A) (file : FileNo) (request : UnmapRequest)
        (area : Area) → IsRun settings before → r.event ≡ event.Unmap file request →
        Contains (world_of settings before).areas area → is_touched file request area ≡ false →
        Outlives area (world_of settings before) (after (length before) (world_of settings before) r) }
{}

/// In every run, each device that owes an area a flush is attached to that area's address space; each device is
/// attached at most once, and each attachment, page table and area names what its file has.
pub fn debtors_are_attached<A: Allocator>()
    ensures { (settings : Settings) (records : List (Record A)) → IsRun settings records →
        DebtsAttached (world_of settings records) }
{}
