//! What is true of a script that was worked by hand, each the contract of a function that does nothing.

ghost use Rattle.std.specs.Prelude.{◌≡◌, ◌∷◌, [], ◌++◌};
ghost use Rattle.iofd_examples.specs.FirstScript as script;
ghost use Rattle.iofd_steps.specs.Run.{IsRun};
ghost use Rattle.iofd_steps.specs.Look.{answers_to};
ghost use Rattle.iofd_words.specs.declared.fault.FaultReason.TheVariants.{ReadDenied, WriteDenied};

/// The records of a script that was worked by hand are a run.
pub fn worked_script_is_a_run()
    ensures { IsRun script.settings script.whole }
{}

/// The tables that no area needs any more may go with the UNMAP that answers its bytes, before their page table.
pub fn lower_tables_may_go_first()
    ensures { IsRun script.settings (script.beginning ++ script.lower_first) }
{}

/// While the device owes its flush, its write may pass and may be denied.
pub fn owed_flush_leaves_both_answers()
    ensures passed { IsRun script.settings (script.beginning ++ script.still_owed ++ script.write_passed ∷ []) }
    ensures denied { IsRun script.settings (script.beginning ++ script.still_owed
        ++ script.write_denied WriteDenied ∷ []) }
{}

/// What the device is answered in that script, by the worlds that its records leave.
pub fn worked_script_reads()
    ensures bytes { answers_to script.settings script.beginning (script.read 0x1ffe 2) ≡ script.bytes_read ∷ [] }
    ensures crossing { answers_to script.settings script.beginning (script.read 0x1fff 2)
        ≡ script.refused_read ∷ [] }
    ensures beyond { answers_to script.settings script.beginning (script.read 0x80_0000_0000 1) ≡ script.beyond_width
        ∷ [] }
    // no attachment comes before the width
    ensures unattached { answers_to script.settings script.bound (script.read 0x80_0000_0000 1) ≡ script.no_context
        ∷ [] }
    ensures elsewhere { answers_to script.settings script.beginning (script.read 0x2000 1) ≡ script.denied 2 ∷ [] }
{}

/// Records that differ from those of the script in one place are no run.
pub fn altered_scripts_are_no_runs()
    // a frame that is a page of the user is given out again
    ensures frame_again { IsRun script.settings (script.beginning ++ script.frame_again ∷ []) → ⊥ }
    // a frame that the pool doesn't have is given out
    ensures frame_beyond { IsRun script.settings (script.beginning ++ script.frame_beyond ∷ []) → ⊥ }
    // a write to a live area is denied
    ensures live_denied { IsRun script.settings (script.beginning ++ script.write_denied WriteDenied ∷ []) → ⊥ }
    // a write is denied for the reason of a read, where the device still owes its flush
    ensures other_reason { IsRun script.settings (script.beginning ++ script.still_owed
        ++ script.write_denied ReadDenied ∷ []) → ⊥ }
    // a write passes after the flush that the device owed
    ensures flushed_passes { IsRun script.settings (script.beginning ++ script.still_owed ++ script.flushed
        ++ script.write_passed ∷ []) → ⊥ }
    // an object of another file is destroyed
    ensures other_file { IsRun script.settings (script.beginning ++ script.other_file ∷ []) → ⊥ }
    // an UNMAP answers its bytes before the flush
    ensures too_early { IsRun script.settings (script.beginning ++ script.too_early ∷ []) → ⊥ }
    // of two causes that apply the second is answered
    ensures wrong_cause { IsRun script.settings (script.beginning ++ script.wrong_cause ∷ []) → ⊥ }
    // a table lies in the frame of a user's page
    ensures users_frame { IsRun script.settings (script.bound ++ script.attach (0 ∷ 1 ∷ 2 ∷ []) ∷ []) → ⊥ }
    // a page table has too few tables
    ensures too_few { IsRun script.settings (script.bound ++ script.attach (1 ∷ 2 ∷ []) ∷ []) → ⊥ }
    // an UNMAP that waits gives a table back
    ensures given_early { IsRun script.settings (script.beginning ++ script.given_early ∷ []) → ⊥ }
    // a table stays where its page table goes
    ensures table_kept { IsRun script.settings (script.beginning ++ script.table_kept ∷ []) → ⊥ }
{}
