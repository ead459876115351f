//! Dirty tracking: marks, reports, and what refuses both commands. Each is the contract of a function that does
//! nothing.

ghost use Rattle.std.specs.Prelude.{◌≡◌};
ghost use Rattle.iofd_examples.specs.DirtyRecords as records;
ghost use Rattle.iofd_examples.specs.DirtyScript as script;
ghost use Rattle.iofd_examples.specs.Words.{ApplyIn, ApplyToQuestionsIn, AreAnsweredIn, AreLawful, AreRefusedIn};
ghost use Rattle.iofd_examples.specs.Words.{NoneIsLawful};
ghost use Rattle.iofd_steps.specs.Run.{IsRun, IsRunFrom, world_from, world_of};

/// Each piece of the script is a run from the world that those before it leave. The position is that of its first
/// record.
pub fn dirty_script_is_a_run()
    ensures beginning { IsRun script.settings script.beginning }
    ensures turning_on { IsRunFrom 6 script.ready script.turning_on }
    ensures writing { IsRunFrom 8 script.tracked script.writing }
    ensures clearing { IsRunFrom 11 script.written script.clearing }
    ensures clearing_again { IsRunFrom 12 script.cleared script.clearing_again }
    ensures clearing_others { IsRunFrom 11 script.written script.clearing_others }
    ensures turning_on_anew { IsRunFrom 11 script.written script.turning_on_anew }
    ensures turning_off { IsRunFrom 11 script.written script.turning_off }
    ensures detaching { IsRunFrom 11 script.written script.detaching }
    ensures making_another { IsRunFrom 6 script.ready script.making_another }
    ensures destroying { IsRunFrom 10 script.both script.destroying }
{}

/// And leaves the world that was written by hand: a device's write that passes marks its page in the page table by
/// which it translates, and nothing else does; a report that clears takes the marks of its span away.
pub fn dirty_script_leaves_its_worlds()
    ensures ready { world_of script.settings script.beginning ≡ script.ready }
    ensures tracked { world_from 6 script.ready script.turning_on ≡ script.tracked }
    ensures written { world_from 8 script.tracked script.writing ≡ script.written }
    ensures cleared { world_from 11 script.written script.clearing ≡ script.cleared }
    ensures cleared_again { world_from 12 script.cleared script.clearing_again ≡ script.cleared }
    ensures cleared_others { world_from 11 script.written script.clearing_others ≡ script.written }
    ensures turned_on_anew { world_from 11 script.written script.turning_on_anew ≡ script.cleared }
    ensures turned_off { world_from 11 script.written script.turning_off ≡ script.turned_off }
    ensures detached { world_from 11 script.written script.detaching ≡ script.detached }
    ensures both { world_from 6 script.ready script.making_another ≡ script.both }
    ensures one_left { world_from 10 script.both script.destroying ≡ script.one_left }
{}

/// What is told of the written pages: bit k of word j is the span's page 64 * j + k, counted from 0.
pub fn written_pages_are_told()
    ensures tracked { AreAnsweredIn script.tracked script.looks_in_tracked }
    ensures written { AreAnsweredIn script.written script.looks_in_written }
    ensures cleared { AreAnsweredIn script.cleared script.looks_in_cleared }
    ensures both { AreAnsweredIn script.both script.looks_in_both }
    ensures marked { AreAnsweredIn script.marked script.looks_in_marked }
{}

/// A record that differs in one place is none that a run may have: another word, a mark left after it was cleared,
/// another kind of answer, or a report of what isn't tracked.
pub fn other_dirty_records_are_unlawful()
    ensures words { NoneIsLawful 11 script.written script.other_words }
    ensures kinds { NoneIsLawful 11 script.written script.other_kinds }
    ensures left { NoneIsLawful 12 script.cleared script.left_marks }
    ensures not_refused { NoneIsLawful 12 script.turned_off script.not_refused }
    ensures causes { NoneIsLawful 12 script.turned_off script.other_causes }
    ensures refusals { AreLawful 12 script.turned_off script.refusals }
{}

/// Both events and the question are refused by each row of their refusals, and the first that applies is answered.
pub fn dirty_commands_are_refused()
    ensures all_enables { ApplyIn records.with_untracked records.enables }
    ensures first_enables { AreRefusedIn records.with_untracked records.enables }
    ensures all_clears { ApplyIn records.with_untracked records.clears }
    ensures first_clears { AreRefusedIn records.with_untracked records.clears }
    ensures looks { ApplyToQuestionsIn records.with_untracked records.looks }
    ensures all_closed { ApplyIn records.closed records.of_closed }
    ensures first_closed { AreRefusedIn records.closed records.of_closed }
{}
