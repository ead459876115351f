//! What counts as a turn, what a walk finds, which entries are sound, and which frames two may not have.

ghost use Rattle.std.specs.Prelude.{◌≡◌, true, false, None, Some, [], ◌∷◌};
ghost use Rattle.iofd_steps.specs.Look.{answers_to, passes_in};
ghost use Rattle.iofd_words.specs.Turns.{turns_of};
ghost use Rattle.iofd_words.specs.declared.fault.AccessKind.TheVariants.{Read, Write};
ghost use Rattle.iofd_words.specs.declared.query.Answer.TheVariants as answer;
ghost use Rattle.iofd_words.specs.declared.refusal.Cause.TheVariants as cause;
ghost use Rattle.iofd_words.specs.declared.rows.Phase.TheVariants.{Live};
ghost use Rattle.iofd_examples.specs.Words.{AreAnsweredIn, count, device, frame, iova, passed, refused_look};
ghost use Rattle.iofd_interleavings.specs.Caches.{IsBacked, Sound};
ghost use Rattle.iofd_interleavings.specs.DeviceAnswers.{Allows, OfRead, OfWrite, device_answer};
ghost use Rattle.iofd_interleavings.specs.FramesApart.{AreOfOneUser, FramesApart, IsNobodys, IsUncached};
ghost use Rattle.iofd_interleavings.specs.Steps.{IsFill, IsHit, caches_after, records_after, world_after};
ghost use Rattle.iofd_interleavings_examples.specs.Kept as kept;
ghost use Rattle.iofd_interleavings_examples.specs.Worked.{entry, records, settings, shared, until_flush, until_read};

/// A device's turns are its attachments, detachments and flushes, refused or not, and nothing else.
pub fn turns_are_counted()
    ensures each { turns_of (device 1) kept.turns_of_first ≡ 6 }
    ensures others { turns_of (device 1) kept.turns_of_none ≡ 0 }
    ensures worked { answers_to settings records (kept.turns 1) ≡ count 2 }
    ensures nobody { answers_to settings records (kept.turns 3) ≡ refused_look cause.Id }
{}

/// A walk finds a page of a live area, at its pin's frame and with the area's rights, and none of a leaving area. At a
/// frame that was kept a device reads as long as it may pass there; and it passes within the page, at no other frame.
pub fn walks_find_what_is_mapped()
    ensures live { AreAnsweredIn (shared Live) kept.questions_in_live }
    ensures one_owes { AreAnsweredIn kept.one_owes kept.questions_in_one_owes }
    ensures unattached { AreAnsweredIn kept.unattached kept.questions_in_unattached }
    ensures passes { passes_in (shared Live) (device 1) (iova 0x1ffe) 2 Write (frame 0) ≡ true }
    ensures elsewhere { passes_in (shared Live) (device 1) (iova 0x1ffe) 2 Write (frame 1) ≡ false }
    ensures crossing { passes_in (shared Live) (device 1) (iova 0x1fff) 2 Write (frame 0) ≡ false }
{}

/// An entry has just the rights of its area, and a cache is sound where each entry is. Where the device owes a leaving
/// area a flush, an entry of it is sound, but none may be filled anew. A hit is by any entry of the cache, of the
/// address's page.
pub fn entries_are_of_their_areas()
    ensures fewer { IsBacked (shared Live) (device 1) kept.for_reads → ⊥ }
    ensures each { Sound (shared Live) (device 1) (entry ∷ kept.next_page ∷ []) → ⊥ }
    ensures owed { Sound kept.both_owe (device 1) (entry ∷ []) }
    ensures anew { IsFill kept.both_owe (device 1) entry → ⊥ }
    ensures older { IsHit (kept.next_page ∷ entry ∷ []) (iova 0x1ffc) 4 Read entry }
{}

/// A frame is cached where any device keeps it, and somebody's where a page, a pin or a table has it, as is one beyond
/// the pool. No two users, no two tables, and no pin and table have one frame.
pub fn frames_that_two_have_are_not_apart()
    ensures cached { IsUncached (caches_after until_flush) (frame 0) → ⊥ }
    ensures of_page { IsNobodys kept.page_alone (λ device. []) (frame 0) → ⊥ }
    ensures of_pin { IsNobodys kept.pin_alone (λ device. []) (frame 0) → ⊥ }
    ensures of_table { IsNobodys (shared Live) (λ device. []) (frame 2) → ⊥ }
    ensures beyond { IsNobodys (shared Live) (λ device. []) (frame 5) → ⊥ }
    ensures pages { FramesApart kept.two_pages → ⊥ }
    ensures page_and_pin { AreOfOneUser kept.page_and_pin → ⊥ }
    ensures pin_and_table { FramesApart kept.pin_and_table → ⊥ }
    ensures tables { FramesApart kept.two_tables → ⊥ }
{}

/// A read at a kept frame is a device's answer, and a user's read is none. The policy allows no bytes but those that
/// stand there, and no write at another frame. The record of a write hit is of the caller's pass.
pub fn other_answers_are_not_allowed()
    ensures cached { device_answer (shared Live) kept.cached_look
        ≡ Some (OfRead (device 1) (iova 0x1ffe) 2 (answer.Read (0 ∷ 0 ∷ []))) }
    ensures of_user { device_answer (shared Live) kept.look_of_user ≡ None }
    ensures bytes { Allows (world_after settings until_read)
        (OfRead (device 1) (iova 0x1ffe) 2 (answer.Read (9 ∷ 11 ∷ []))) → ⊥ }
    ensures written { Allows (shared Live) (OfWrite (device 1) (iova 0x1ffc) (7 ∷ []) (passed 1)) → ⊥ }
    ensures pass { records_after (kept.writes_of_another ∷ []) ≡ kept.record_of_another ∷ [] }
{}
