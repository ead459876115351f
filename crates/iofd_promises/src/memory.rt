//! What stands in memory, each the contract of a function that does nothing.

ghost use Rattle.std.specs.Prelude.{◌≡◌, ◌≢◌, ◌/◌, ◌%◌, ℕ, false, List, [], ◌∷◌};
ghost use Rattle.std.specs.Prelude.{◌++◌, Contains};
ghost use Rattle.iofd_promises.specs.Bytes.{AreBytesOf, ChangesJust, changes_bytes, reads};
ghost use Rattle.iofd_promises.specs.Holding.{ReachesByPin};
ghost use Rattle.iofd_steps.specs.Look.{answers_to};
ghost use Rattle.iofd_steps.specs.Run.{IsRun, world_of};
ghost use Rattle.iofd_words.specs.Record.{Record};
ghost use Rattle.iofd_words.specs.Settings.{Settings};
ghost use Rattle.iofd_words.specs.declared.event.Event.TheVariants as event;
ghost use Rattle.iofd_words.specs.declared.fault.AccessKind.TheVariants.{Read, Write};
ghost use Rattle.iofd_words.specs.declared.numbers.DeviceNo.{DeviceNo};
ghost use Rattle.iofd_words.specs.declared.numbers.FileNo.{FileNo};
ghost use Rattle.iofd_words.specs.declared.numbers.FrameNo.{FrameNo};
ghost use Rattle.iofd_words.specs.declared.numbers.Iova.{Iova};
ghost use Rattle.iofd_words.specs.declared.numbers.ObjId.{ObjId};
ghost use Rattle.iofd_words.specs.declared.numbers.UserNo.{UserNo};
ghost use Rattle.iofd_words.specs.declared.query.Answer.TheVariants as answer;
ghost use Rattle.iofd_words.specs.declared.query.Query.TheVariants.{AccessRead, UserRead};
ghost use Rattle.iofd_words.specs.declared.reply.Reply.TheVariants as reply;
ghost use Rattle.iofd_words.specs.declared.rows.UserPage.{UserPage};

use std::alloc::Allocator;

/// A frame that a user is given reads zero at every byte.
pub fn given_frames_read_zero<A: Allocator>()
    ensures { (settings : Settings) (before : List (Record A)) (r : Record A) (frame : FrameNo) (place : ℕ) →
        IsRun settings (before ++ r ∷ []) → r.reply ≡ reply.Frame frame →
        reads (world_of settings (before ++ r ∷ [])).writes frame.0 place ≡ 0 }
{}

/// A device's write that passes at a frame changes just its bytes: from the address's place in its page on they read as
/// they were written, and every other byte of every frame reads as before.
pub fn passed_writes_change_just_their_bytes<A: Allocator>()
    ensures { (settings : Settings) (before : List (Record A)) (r : Record A) (device : DeviceNo) (iova : Iova)
        (bytes : List ℕ) (frame : FrameNo) →
        IsRun settings (before ++ r ∷ []) → r.event ≡ event.DeviceWrite device iova bytes →
        r.reply ≡ reply.Passed frame →
        ChangesJust (world_of settings before) (world_of settings (before ++ r ∷ [])) frame.0 (iova.0 % 4096) bytes }
{}

/// A user's write that is done changes just its bytes, in the frame that this user's page has.
pub fn user_writes_change_just_their_bytes<A: Allocator>()
    ensures { (settings : Settings) (before : List (Record A)) (r : Record A) (user : UserNo) (va : ℕ)
        (bytes : List ℕ) →
        IsRun settings (before ++ r ∷ []) → r.event ≡ event.UserWrite user va bytes → r.reply ≡ reply.Done →
        (page : UserPage) × Contains (world_of settings before).user_pages page × (page.user ≡ user)
        × (page.page ≡ va / 4096)
        × ChangesJust (world_of settings before) (world_of settings (before ++ r ∷ [])) page.frame.0 (va % 4096) bytes }
{}

/// An access object's write that is done changes just its bytes, in the frame that it reaches by a pin for writes.
pub fn held_writes_change_just_their_bytes<A: Allocator>()
    ensures { (settings : Settings) (before : List (Record A)) (r : Record A) (file : FileNo) (access : ObjId)
        (iova : Iova) (bytes : List ℕ) →
        IsRun settings (before ++ r ∷ []) → r.event ≡ event.AccessWrite file access iova bytes →
        r.reply ≡ reply.Done →
        (frame : FrameNo) × ReachesByPin (world_of settings before) file access iova.0 Write frame
        × ChangesJust (world_of settings before) (world_of settings (before ++ r ∷ [])) frame.0 (iova.0 % 4096) bytes }
{}

/// Nothing but a user's or an access object's write that is done and a device's write that passes changes a byte, but
/// for a frame that the record gives to a user: not a refused or denied one, nor any other event.
pub fn nothing_else_changes_a_byte<A: Allocator>()
    ensures { (settings : Settings) (before : List (Record A)) (r : Record A) (frame place : ℕ) →
        IsRun settings (before ++ r ∷ []) → changes_bytes r.event r.reply ≡ false →
        ((given : FrameNo) → r.reply ≡ reply.Frame given → given.0 ≢ frame) →
        reads (world_of settings (before ++ r ∷ [])).writes frame place
        ≡ reads (world_of settings before).writes frame place }
{}

/// An access object that reads through a pin is answered as many bytes as it asked for, those that stand in the frame
/// that it reaches.
pub fn held_reads_answer_what_stands_there<A: Allocator>()
    ensures { (settings : Settings) (records : List (Record A)) (file : FileNo) (access : ObjId) (iova : Iova) (len : ℕ)
        (bytes : List ℕ) →
        IsRun settings records →
        Contains (answers_to settings records (AccessRead file access iova len)) (answer.Read bytes) →
        (frame : FrameNo) × ReachesByPin (world_of settings records) file access iova.0 Read frame
        × AreBytesOf (world_of settings records) frame.0 (iova.0 % 4096) len bytes }
{}

/// A user that reads its memory is answered as many bytes as it asked for, those that stand in the frame of its page.
pub fn reads_answer_what_stands_there<A: Allocator>()
    ensures { (settings : Settings) (records : List (Record A)) (user : UserNo) (va len : ℕ) (bytes : List ℕ) →
        IsRun settings records → Contains (answers_to settings records (UserRead user va len)) (answer.Read bytes) →
        (page : UserPage) × Contains (world_of settings records).user_pages page × (page.user ≡ user)
        × (page.page ≡ va / 4096)
        × AreBytesOf (world_of settings records) page.frame.0 (va % 4096) len bytes }
{}
