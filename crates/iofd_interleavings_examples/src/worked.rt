//! Steps that may be made.

ghost use Rattle.std.specs.Prelude.{◌≡◌, Some, List, [], ◌∷◌, map};
ghost use Rattle.iofd_steps.specs.Run.{world_of};
ghost use Rattle.iofd_words.specs.declared.query.Answer.TheVariants as answer;
ghost use Rattle.iofd_words.specs.declared.rows.Phase.TheVariants.{Live};
ghost use Rattle.iofd_examples.specs.Words.{answers_id, attach, device, device_write, frame, iova, moving, passed};
ghost use Rattle.iofd_examples.specs.Words.{step, user};
ghost use Rattle.iofd_interleavings.specs.DeviceAnswers.{OfRead, OfWrite, device_answer};
ghost use Rattle.iofd_interleavings.specs.FramesApart.{GivesOut, IsPageAt, IsPinAt};
ghost use Rattle.iofd_interleavings.specs.Steps.{AreSteps, Made, caches_after, records_after, world_after};
ghost use Rattle.iofd_interleavings_examples.specs.Worked.{beginning, entry, looks, reads, records, settings, shared};
ghost use Rattle.iofd_interleavings_examples.specs.Worked.{until_flush, until_read, worked, writes};

/// The worked steps are steps: looks, fills, a write hit, read hits before and while an UNMAP waits, drops, and records
/// up to the frame's next user. They make just these records.
pub fn worked_steps_are_steps()
    ensures begins { world_of settings beginning ≡ shared Live }
    ensures steps { AreSteps settings worked }
    ensures records { records_after worked ≡ records }
{}

/// Device 1 keeps the page until it drops it, device 2 a while longer, and twice; in the end nothing is kept.
pub fn worked_caches()
    ensures filled { caches_after until_read (device 1) ≡ entry ∷ [] }
    ensures dropped { caches_after until_flush (device 1) ≡ [] }
    ensures other { caches_after until_flush (device 2) ≡ entry ∷ entry ∷ [] }
    ensures first { caches_after worked (device 1) ≡ [] }
    ensures second { caches_after worked (device 2) ≡ [] }
{}

/// What devices are answered: a look and a record as they were told, a write hit by the frame, and a read hit by two of
/// the bytes that the write hit wrote.
pub fn worked_answers()
    ensures look { device_answer (world_of settings beginning) looks
        ≡ Some (OfRead (device 1) (iova 0x1ffc) 4 (answer.Read (0 ∷ 0 ∷ 0 ∷ 0 ∷ []))) }
    ensures record { device_answer (world_of settings beginning)
        (Made (step (device_write 1 0x1ffc (7 ∷ 8 ∷ 9 ∷ 10 ∷ [])) (passed 0)))
        ≡ Some (OfWrite (device 1) (iova 0x1ffc) (7 ∷ 8 ∷ 9 ∷ 10 ∷ []) (passed 0)) }
    ensures write { device_answer (world_of settings beginning) writes
        ≡ Some (OfWrite (device 1) (iova 0x1ffc) (7 ∷ 8 ∷ 9 ∷ 10 ∷ []) (passed 0)) }
    ensures read { device_answer (world_after settings until_read) reads
        ≡ Some (OfRead (device 1) (iova 0x1ffe) 2 (answer.Read (9 ∷ 10 ∷ []))) }
{}

/// The first attachment gives frames out for tables. Where both devices are attached, frame 0 is the first user's page
/// and pin.
pub fn worked_frames()
    ensures tables { GivesOut (Made (moving (attach 1 1) (answers_id 4) (1 ∷ 2 ∷ 3 ∷ []) [])) (frame 2) }
    ensures page { IsPageAt (shared Live) 0 (user 1) }
    ensures pin { IsPinAt (shared Live) 0 (user 1) }
{}
