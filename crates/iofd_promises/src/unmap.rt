//! What an UNMAP takes away and waits for, each the contract of a function that does nothing.

ghost use Rattle.std.specs.Prelude.{◌≡◌, ℕ, List, [], ◌∷◌, ◌++◌};
ghost use Rattle.iofd_promises.specs.Unmaps.{AllPaid, SameOthers, TakesAway, Waits};
ghost use Rattle.iofd_steps.specs.Run.{IsRun, world_of};
ghost use Rattle.iofd_words.specs.Record.{Record};
ghost use Rattle.iofd_words.specs.Settings.{Settings};
ghost use Rattle.iofd_words.specs.declared.event.Event.TheVariants as event;
ghost use Rattle.iofd_words.specs.declared.event.UnmapRequest.{UnmapRequest};
ghost use Rattle.iofd_words.specs.declared.numbers.DeviceNo.{DeviceNo};
ghost use Rattle.iofd_words.specs.declared.numbers.FileNo.{FileNo};
ghost use Rattle.iofd_words.specs.declared.refusal.Errno.{Errno};
ghost use Rattle.iofd_words.specs.declared.reply.Reply.TheVariants as reply;

use std::alloc::Allocator;

/// An UNMAP answers bytes only where no device owes an area that it names a flush, no access pin lies in one, and each
/// of these areas lies wholly in it. The count is the sum of their lengths, they are gone, and every other area stands
/// as it was.
pub fn bytes_are_answered_where_nobody_owes<A: Allocator>()
    ensures { (settings : Settings) (before : List (Record A)) (r : Record A) (file : FileNo) (request : UnmapRequest)
        (count : ℕ) →
        IsRun settings (before ++ r ∷ []) → r.event ≡ event.Unmap file request →
        r.reply ≡ reply.Bytes count →
        TakesAway (world_of settings before) (world_of settings (before ++ r ∷ [])) file request count }
{}

/// An UNMAP waits only where some device owes an area that it names a flush, or an access pin lies in one. Each such
/// area leaves then, owed by whoever owed it; every other area, and all other rows but tables, stand as they were. The
/// answer is EAGAIN where none of the areas has seen a hundred such answers, and each has seen one more than the most
/// then; else it is EDEADLOCK, and nothing more is counted.
pub fn an_unmap_waits_for_who_owes<A: Allocator>()
    ensures waits { (settings : Settings) (before : List (Record A)) (r : Record A) (file : FileNo)
        (request : UnmapRequest)
        (errno : Errno) →
        IsRun settings (before ++ r ∷ []) → r.event ≡ event.Unmap file request →
        r.reply ≡ reply.Pending errno →
        Waits (world_of settings before) (world_of settings (before ++ r ∷ [])) file request errno }
    ensures others { (settings : Settings) (before : List (Record A)) (r : Record A) (file : FileNo)
        (request : UnmapRequest)
        (errno : Errno) →
        IsRun settings (before ++ r ∷ []) → r.event ≡ event.Unmap file request →
        r.reply ≡ reply.Pending errno →
        SameOthers (world_of settings before) (world_of settings (before ++ r ∷ [])) }
{}

/// A device's flush takes its own debts away, and nothing else: no other device's, no area, and no other row but
/// tables.
pub fn a_flush_pays_its_own_debts<A: Allocator>()
    ensures paid { (settings : Settings) (before : List (Record A)) (r : Record A) (device : DeviceNo) →
        IsRun settings (before ++ r ∷ []) → r.event ≡ event.Flush device → r.reply ≡ reply.Done →
        AllPaid device (world_of settings before).areas (world_of settings (before ++ r ∷ [])).areas }
    ensures others { (settings : Settings) (before : List (Record A)) (r : Record A) (device : DeviceNo) →
        IsRun settings (before ++ r ∷ []) → r.event ≡ event.Flush device → r.reply ≡ reply.Done →
        SameOthers (world_of settings before) (world_of settings (before ++ r ∷ [])) }
{}
