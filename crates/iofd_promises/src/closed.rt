//! What is left of a closed file, each the contract of a function that does nothing.

ghost use Rattle.std.specs.Prelude.{◌≡◌, Some, List, [], ◌∷◌, ◌++◌, Contains};
ghost use Rattle.iofd_promises.specs.Closing.{HasNothing, IsGone, file_named};
ghost use Rattle.iofd_steps.specs.Run.{IsRun, world_of};
ghost use Rattle.iofd_words.specs.Record.{Record};
ghost use Rattle.iofd_words.specs.Settings.{Settings};
ghost use Rattle.iofd_words.specs.declared.event.Event.TheVariants as event;
ghost use Rattle.iofd_words.specs.declared.numbers.FileNo.{FileNo};
ghost use Rattle.iofd_words.specs.declared.refusal.Cause.TheVariants as cause;
ghost use Rattle.iofd_words.specs.declared.reply.Reply.TheVariants as reply;

use std::alloc::Allocator;

/// In every run, a closed file has nothing: no object, no area, no attachment, no allowed ranges and no access pin.
pub fn closed_files_have_nothing<A: Allocator>()
    ensures { (settings : Settings) (records : List (Record A)) (file : FileNo) → IsRun settings records →
        Contains (world_of settings records).closed file → HasNothing (world_of settings records) file }
{}

/// A Close that is done closes its file, and no record opens a closed one.
pub fn closed_files_stay_closed<A: Allocator>()
    ensures closes { (settings : Settings) (before : List (Record A)) (r : Record A) (file : FileNo) →
        IsRun settings (before ++ r ∷ []) → r.event ≡ event.Close file → r.reply ≡ reply.Done →
        Contains (world_of settings (before ++ r ∷ [])).closed file }
    ensures stays { (settings : Settings) (before : List (Record A)) (r : Record A) (file : FileNo) →
        IsRun settings (before ++ r ∷ []) → Contains (world_of settings before).closed file →
        Contains (world_of settings (before ++ r ∷ [])).closed file }
{}

/// Each command that names a file that is closed, or that isn't there, is refused with the cause Id, and changes
/// nothing.
pub fn commands_of_gone_files_are_refused<A: Allocator>()
    ensures { (settings : Settings) (before : List (Record A)) (r : Record A) (file : FileNo) →
        IsRun settings (before ++ r ∷ []) → file_named r.event ≡ Some file →
        IsGone (world_of settings before) file →
        (r.reply ≡ reply.Refused (record { cause = cause.Id }))
        × (world_of settings (before ++ r ∷ []) ≡ world_of settings before) }
{}
