//! What a MAP and a COPY make, each the contract of a function that does nothing.

ghost use Rattle.std.specs.Prelude.{◌≡◌, List, [], ◌∷◌, ◌++◌};
ghost use Rattle.iofd_promises.specs.Mapped.{MapsAgain, MapsAsked};
ghost use Rattle.iofd_steps.specs.Run.{IsRun, world_of};
ghost use Rattle.iofd_words.specs.Record.{Record};
ghost use Rattle.iofd_words.specs.Settings.{Settings};
ghost use Rattle.iofd_words.specs.declared.event.CopyRequest.{CopyRequest};
ghost use Rattle.iofd_words.specs.declared.event.Event.TheVariants as event;
ghost use Rattle.iofd_words.specs.declared.event.MapRequest.{MapRequest};
ghost use Rattle.iofd_words.specs.declared.numbers.FileNo.{FileNo};
ghost use Rattle.iofd_words.specs.declared.numbers.Iova.{Iova};
ghost use Rattle.iofd_words.specs.declared.reply.Reply.TheVariants as reply;

use std::alloc::Allocator;

/// A MAP makes one area, at the address that it answers, of the length and with just the rights that were asked for. It
/// lies over a new memory object: the pages that were asked for, of the user of the file. Every other area stands.
pub fn a_map_maps_what_was_asked<A: Allocator>()
    ensures { (settings : Settings) (before : List (Record A)) (r : Record A) (file : FileNo) (request : MapRequest)
        (iova : Iova) →
        IsRun settings (before ++ r ∷ []) → r.event ≡ event.Map file request → r.reply ≡ reply.Iova iova →
        MapsAsked (world_of settings before) (world_of settings (before ++ r ∷ [])) file request iova }
{}

/// A COPY makes one area, at the address that it answers, of the length and with just the rights that were asked for.
/// It lies over the memory object of the mapped area whose span is exactly the source range. Every other area stands,
/// and no memory object comes.
pub fn a_copy_maps_the_same_memory<A: Allocator>()
    ensures { (settings : Settings) (before : List (Record A)) (r : Record A) (file : FileNo) (request : CopyRequest)
        (iova : Iova) →
        IsRun settings (before ++ r ∷ []) → r.event ≡ event.Copy file request → r.reply ≡ reply.Iova iova →
        MapsAgain (world_of settings before) (world_of settings (before ++ r ∷ [])) file request iova }
{}
