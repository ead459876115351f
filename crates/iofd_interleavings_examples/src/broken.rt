//! Steps of which one breaks a demand, and what is false then.

ghost use Rattle.std.specs.Prelude.{◌≡◌, true, None, List, [], ◌∷◌, ◌++◌, length, IsTrue};
ghost use Rattle.std.specs.declared.alloc.Global.{Global};
ghost use Rattle.iofd_words.specs.Areas.{is_waiting};
ghost use Rattle.iofd_refusals.specs.Checks.{refusal};
ghost use Rattle.iofd_steps.specs.Run.{Lawful};
ghost use Rattle.iofd_words.specs.declared.reply.Reply.TheVariants as reply;
ghost use Rattle.iofd_words.specs.declared.rows.Phase.TheVariants.{Live, Leaving};
ghost use Rattle.iofd_examples.specs.Words.{answers_frame, device, file, flush, step, unmap_in, user_map};
ghost use Rattle.iofd_interleavings.specs.Steps.{AreSteps, IsFill, caches_after, records_after, world_after};
ghost use Rattle.iofd_interleavings_examples.specs.Broken.{Breaks, GivesCached, IsUnsound, after_fill, after_flush};
ghost use Rattle.iofd_interleavings_examples.specs.Broken.{after_unmap, before_fill, before_flush, before_give_up};
ghost use Rattle.iofd_interleavings_examples.specs.Broken.{before_unmap, given_up, unpinned};
ghost use Rattle.iofd_interleavings_examples.specs.Worked.{entry, fills, flushes, gets, gives_up, settings, shared};
ghost use Rattle.iofd_interleavings_examples.specs.Worked.{takes};

/// A flush that keeps its cache. The record of the flush is lawful; but the cache of its device isn't empty.
pub fn a_flush_that_keeps_its_cache_is_unsound()
    ensures breaks { Breaks before_flush (flushes 1) after_flush }
    ensures lawful { Lawful (length (records_after before_flush)) (world_after settings before_flush)
        (step (flush 1) reply.Done) }
    ensures cached { caches_after before_flush (device 1) ≡ entry ∷ [] }
    ensures leaves { world_after settings (before_flush ++ flushes 1 ∷ []) ≡ shared (Leaving (2 ∷ []) 1) }
{}

/// A fill from a leaving area that the device doesn't owe. The device is attached and the page is pinned; but the area
/// is leaving, and device 2 alone owes it.
pub fn a_fill_after_the_flush_is_unsound()
    ensures breaks { Breaks before_fill (fills 1) after_fill }
    ensures world { world_after settings before_fill ≡ shared (Leaving (2 ∷ []) 1) }
    ensures late { IsFill (world_after settings before_fill) (device 1) entry → ⊥ }
{}

/// An UNMAP that answers bytes while a device owes. Nothing refuses it; but device 1 owes the area a flush.
pub fn an_unmap_that_does_not_wait_is_unsound()
    ensures breaks { Breaks before_unmap takes after_unmap }
    ensures world { world_after settings before_unmap ≡ shared (Leaving (1 ∷ []) 1) }
    ensures passes { refusal (world_after settings before_unmap) (unmap_in 1 1 0x1000 0x1000) ≡ None }
    ensures early { Lawful (length (records_after before_unmap)) (world_after settings before_unmap)
        (step (unmap_in 1 1 0x1000 0x1000) (reply.Bytes 0x1000)) → ⊥ }
{}

/// A pin that goes with the user's page. In the world that is left the pin stays; were it gone, the cache of device 1
/// would be unsound, and its frame could be the second user's.
pub fn a_pin_that_goes_with_its_page_is_unsound()
    ensures begins { AreSteps settings (before_give_up ++ gives_up ∷ []) }
    ensures world { world_after settings (before_give_up ++ gives_up ∷ []) ≡ given_up }
    ensures unsound { IsUnsound unpinned (caches_after (before_give_up ++ gives_up ∷ []) (device 1)) }
    ensures next { Lawful (length (records_after (before_give_up ++ gives_up ∷ []))) unpinned
        (step (user_map 2 0x10000) (answers_frame 0)) }
    ensures given { GivesCached (caches_after (before_give_up ++ gives_up ∷ []) (device 1)) gets }
{}
