//! Which accesses of a device pass, and where, each the contract of a function that does nothing.

ghost use Rattle.std.specs.Prelude.{◌≡◌, ◌%◌, ℕ, List, [], ◌∷◌, ◌++◌, Contains};
ghost use Rattle.iofd_promises.specs.Bytes.{AreBytesOf};
ghost use Rattle.iofd_promises.specs.Reaches.{IsOver, Reaches, TellsWhy};
ghost use Rattle.iofd_steps.specs.Look.{answers_to};
ghost use Rattle.iofd_steps.specs.Run.{IsRun, world_of};
ghost use Rattle.iofd_words.specs.Record.{Record};
ghost use Rattle.iofd_words.specs.Settings.{Settings};
ghost use Rattle.iofd_words.specs.declared.event.Event.TheVariants as event;
ghost use Rattle.iofd_words.specs.declared.fault.AccessKind.TheVariants.{Read, Write};
ghost use Rattle.iofd_words.specs.declared.fault.Fault.{Fault};
ghost use Rattle.iofd_words.specs.declared.numbers.DeviceNo.{DeviceNo};
ghost use Rattle.iofd_words.specs.declared.numbers.FrameNo.{FrameNo};
ghost use Rattle.iofd_words.specs.declared.numbers.Iova.{Iova};
ghost use Rattle.iofd_words.specs.declared.query.Answer.TheVariants as answer;
ghost use Rattle.iofd_words.specs.declared.query.Query.TheVariants.{DeviceRead};
ghost use Rattle.iofd_words.specs.declared.reply.Reply.TheVariants as reply;
ghost use Rattle.iofd_words.specs.declared.rows.Area.{Area};
ghost use Rattle.iofd_words.specs.declared.rows.Phase.TheVariants.{Live};

use std::alloc::Allocator;

/// A device's write passes only at a frame that the device reaches: an area with the right to write is over the
/// address, in the address space by which the device translates, mapped still or owed a flush by that device, and the
/// frame is that of the pin of the page that lies there.
pub fn passed_writes_reach_their_frame<A: Allocator>()
    ensures { (settings : Settings) (before : List (Record A)) (r : Record A) (device : DeviceNo) (iova : Iova)
        (bytes : List ℕ) (frame : FrameNo) →
        IsRun settings (before ++ r ∷ []) → r.event ≡ event.DeviceWrite device iova bytes →
        r.reply ≡ reply.Passed frame →
        Reaches (world_of settings before) device iova.0 Write frame }
{}

/// A device that reads is answered as many bytes as it asked for, those of a frame that it reaches with the right to
/// read.
pub fn read_bytes_are_of_a_reached_frame<A: Allocator>()
    ensures { (settings : Settings) (records : List (Record A)) (device : DeviceNo) (iova : Iova) (len : ℕ)
        (bytes : List ℕ) →
        IsRun settings records →
        Contains (answers_to settings records (DeviceRead device iova len)) (answer.Read bytes) →
        (frame : FrameNo) × Reaches (world_of settings records) device iova.0 Read frame
        × AreBytesOf (world_of settings records) frame.0 (iova.0 % 4096) len bytes }
{}

/// A device's write is denied only where no mapped area with the right to write is over the address.
pub fn denied_writes_have_no_area<A: Allocator>()
    ensures { (settings : Settings) (before : List (Record A)) (r : Record A) (device : DeviceNo) (iova : Iova)
        (bytes : List ℕ) (fault : Fault) (area : Area) →
        IsRun settings (before ++ r ∷ []) → r.event ≡ event.DeviceWrite device iova bytes →
        r.reply ≡ reply.Fault fault →
        IsOver (world_of settings before) device iova.0 Write area → area.phase ≡ Live → ⊥ }
{}

/// Nor is a read, but where no mapped area with the right to read is.
pub fn denied_reads_have_no_area<A: Allocator>()
    ensures { (settings : Settings) (records : List (Record A)) (device : DeviceNo) (iova : Iova) (len : ℕ)
        (fault : Fault) (area : Area) →
        IsRun settings records →
        Contains (answers_to settings records (DeviceRead device iova len)) (answer.Fault fault) →
        IsOver (world_of settings records) device iova.0 Read area → area.phase ≡ Live → ⊥ }
{}

/// The fault of a denied access names the device's source id, the page, the access, and why: no attachment, an address
/// at or beyond the end of the device's tables, or else one that isn't mapped for a write or for a read.
pub fn faults_tell_why<A: Allocator>()
    ensures writes { (settings : Settings) (before : List (Record A)) (r : Record A) (device : DeviceNo) (iova : Iova)
        (bytes : List ℕ) (fault : Fault) →
        IsRun settings (before ++ r ∷ []) → r.event ≡ event.DeviceWrite device iova bytes →
        r.reply ≡ reply.Fault fault →
        TellsWhy (world_of settings before) device iova.0 Write fault }
    ensures reads { (settings : Settings) (records : List (Record A)) (device : DeviceNo) (iova : Iova) (len : ℕ)
        (fault : Fault) →
        IsRun settings records →
        Contains (answers_to settings records (DeviceRead device iova len)) (answer.Fault fault) →
        TellsWhy (world_of settings records) device iova.0 Read fault }
{}
