//! What access objects pin, each the contract of a function that does nothing.

ghost use Rattle.std.specs.Prelude.{◌≡◌, ◌≢◌, ◌≤◌, ◌==◌, ◌&&◌, ℕ, true, Some, List, [], ◌∷◌, ◌++◌, Contains};
ghost use Rattle.iofd_promises.specs.Bounded.{how_many};
ghost use Rattle.iofd_promises.specs.Closing.{file_named};
ghost use Rattle.iofd_promises.specs.Holding.{HasPinLess, HasPinMore, IsUnder, IsWholePages, KeepsPinned, pins_of};
ghost use Rattle.iofd_promises.specs.Unmaps.{LiesIn, is_named};
ghost use Rattle.iofd_steps.specs.Run.{IsRun, world_of};
ghost use Rattle.iofd_words.specs.Record.{Record};
ghost use Rattle.iofd_words.specs.Settings.{Settings};
ghost use Rattle.iofd_words.specs.declared.event.Event.TheVariants as event;
ghost use Rattle.iofd_words.specs.declared.event.PinRequest.{PinRequest};
ghost use Rattle.iofd_words.specs.declared.event.UnmapRequest.{UnmapRequest};
ghost use Rattle.iofd_words.specs.declared.numbers.FileNo.{FileNo};
ghost use Rattle.iofd_words.specs.declared.numbers.FrameNo.{FrameNo};
ghost use Rattle.iofd_words.specs.declared.numbers.ObjId.{ObjId};
ghost use Rattle.iofd_words.specs.declared.reply.Reply.TheVariants as reply;
ghost use Rattle.iofd_words.specs.declared.rows.AccessPin.{AccessPin};
ghost use Rattle.iofd_words.specs.declared.rows.Area.{Area};
ghost use Rattle.iofd_words.specs.declared.rows.Pin.{Pin};

use std::alloc::Allocator;

/// In every run, a page of a memory object has a pin just where something keeps it pinned: an access pin that covers it
/// in some area, or a page table over the address space of some area that has it.
pub fn pages_are_pinned_by_what_keeps_them<A: Allocator>()
    ensures pinned { (settings : Settings) (records : List (Record A)) (memory index : ℕ) →
        IsRun settings records → KeepsPinned (world_of settings records) memory index →
        (pin : Pin) × Contains (world_of settings records).pins pin × (pin.memory ≡ memory) × (pin.index ≡ index) }
    ensures only { (settings : Settings) (records : List (Record A)) (pin : Pin) →
        IsRun settings records → Contains (world_of settings records).pins pin →
        KeepsPinned (world_of settings records) pin.memory pin.index }
{}

/// Whatever its user does, a page keeps the frame that it is pinned at over every record after which something keeps it
/// pinned still, be it another access pin than before, or a page table.
pub fn pages_keep_their_frames_while_pinned<A: Allocator>()
    ensures { (settings : Settings) (before : List (Record A)) (r : Record A) (pin : Pin) →
        IsRun settings (before ++ r ∷ []) → Contains (world_of settings before).pins pin →
        KeepsPinned (world_of settings (before ++ r ∷ [])) pin.memory pin.index →
        Contains (world_of settings (before ++ r ∷ [])).pins pin }
{}

/// The frame of a page that something keeps pinned is given to nobody: no record gives it to a user, or takes it for a
/// table.
pub fn frames_of_pinned_pages_are_given_to_nobody<A: Allocator>()
    ensures to_users { (settings : Settings) (before : List (Record A)) (r : Record A) (memory index : ℕ)
        (frame : FrameNo) → IsRun settings (before ++ r ∷ []) →
        KeepsPinned (world_of settings before) memory index → r.reply ≡ reply.Frame frame →
        (pin : Pin) × Contains (world_of settings before).pins pin × (pin.memory ≡ memory) × (pin.index ≡ index)
        × (frame.0 ≢ pin.frame.0) }
    ensures for_tables { (settings : Settings) (before : List (Record A)) (r : Record A) (memory index : ℕ)
        (frame : FrameNo) → IsRun settings (before ++ r ∷ []) →
        KeepsPinned (world_of settings before) memory index → Contains r.taken frame →
        (pin : Pin) × Contains (world_of settings before).pins pin × (pin.memory ≡ memory) × (pin.index ≡ index)
        × (frame.0 ≢ pin.frame.0) }
{}

/// In every run, the access object that holds an access pin is attached, and at each address of the pin an area of its
/// address space lies.
pub fn areas_lie_under_access_pins<A: Allocator>()
    ensures { (settings : Settings) (records : List (Record A)) (pin : AccessPin) (address : ℕ) →
        IsRun settings records → Contains (world_of settings records).access_pins pin →
        pin.span.first ≤ address → address ≤ pin.span.last → IsUnder (world_of settings records) pin address }
{}

/// In every run, an access pin is of whole pages, at least one, below 2^64, and an access object holds at most 65,535.
pub fn access_pins_are_whole_pages_and_few<A: Allocator>()
    ensures pages { (settings : Settings) (records : List (Record A)) (pin : AccessPin) →
        IsRun settings records → Contains (world_of settings records).access_pins pin → IsWholePages pin }
    ensures few { (settings : Settings) (records : List (Record A)) (file access : ℕ) → IsRun settings records →
        how_many (λ (pin : AccessPin). pin.file.0 == file && pin.access.0 == access)
        (world_of settings records).access_pins ≤ 65535 }
{}

/// After an UNMAP that answers bytes no access pin lies in an area that it took away.
pub fn no_access_pin_lies_in_what_an_unmap_took<A: Allocator>()
    ensures { (settings : Settings) (before : List (Record A)) (r : Record A) (file : FileNo) (request : UnmapRequest)
        (count : ℕ) (area : Area) (pin : AccessPin) →
        IsRun settings (before ++ r ∷ []) → r.event ≡ event.Unmap file request → r.reply ≡ reply.Bytes count →
        Contains (world_of settings before).areas area → is_named file request area ≡ true →
        LiesIn (world_of settings (before ++ r ∷ [])) pin area → ⊥ }
{}

/// A record leaves the access pins of a file that its command doesn't name.
pub fn access_pins_of_files_are_apart<A: Allocator>()
    ensures { (settings : Settings) (before : List (Record A)) (r : Record A) (file : FileNo) →
        IsRun settings (before ++ r ∷ []) → ((named : FileNo) → file_named r.event ≡ Some named → named.0 ≢ file.0) →
        pins_of file (world_of settings (before ++ r ∷ [])).access_pins
        ≡ pins_of file (world_of settings before).access_pins }
{}

/// A pin that is done adds just one access pin, of the access object, the pages and the accesses that it names.
pub fn a_pin_adds_just_itself<A: Allocator>()
    ensures { (settings : Settings) (before : List (Record A)) (r : Record A) (file : FileNo) (access : ObjId)
        (request : PinRequest) →
        IsRun settings (before ++ r ∷ []) → r.event ≡ event.AccessPin file access request → r.reply ≡ reply.Done →
        HasPinMore (world_of settings before) (world_of settings (before ++ r ∷ [])) file access request }
{}

/// An unpin that is done takes just one access pin away, of the access object, the pages and the accesses that it
/// names.
pub fn an_unpin_takes_just_one<A: Allocator>()
    ensures { (settings : Settings) (before : List (Record A)) (r : Record A) (file : FileNo) (access : ObjId)
        (request : PinRequest) →
        IsRun settings (before ++ r ∷ []) → r.event ≡ event.AccessUnpin file access request →
        r.reply ≡ reply.Done →
        HasPinLess (world_of settings before) (world_of settings (before ++ r ∷ [])) file access request }
{}
