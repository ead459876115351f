//! Pins by access objects. Each is the contract of a function that does nothing.

ghost use Rattle.std.specs.Prelude.{◌≡◌};
ghost use Rattle.iofd_examples.specs.PinRecords as records;
ghost use Rattle.iofd_examples.specs.PinScript as script;
ghost use Rattle.iofd_examples.specs.Words.{ApplyIn, AreAnsweredIn, AreLawful, AreRefusedIn, NoneIsLawful};
ghost use Rattle.iofd_examples.specs.Words.{ApplyToNoticesIn, ApplyToQuestionsIn, AreNoticedIn};
ghost use Rattle.iofd_steps.specs.Run.{IsRun, IsRunFrom, world_from, world_of};

/// Each piece of the script is a run from the world that those before it leave. The position is that of its first
/// record.
pub fn pin_script_is_a_run()
    ensures beginning { IsRun script.settings script.beginning }
    ensures pinning { IsRunFrom 20 script.ready script.pinning }
    ensures keeping { IsRunFrom 23 script.pinned script.keeping }
    ensures unpinning { IsRunFrom 27 script.kept script.unpinning }
    ensures letting_go { IsRunFrom 29 script.one_left script.letting_go }
    ensures pinning_anew { IsRunFrom 30 script.let_go script.pinning_anew }
    ensures translating { IsRunFrom 23 script.pinned script.translating }
    ensures parting { IsRunFrom 27 script.translated script.parting }
    ensures waiting { IsRunFrom 23 script.pinned script.waiting }
    ensures unpinning_wide { IsRunFrom 25 script.leaving script.unpinning_wide }
    ensures second_leaves { IsRunFrom 26 script.narrow script.second_leaves }
    ensures first_leaves { IsRunFrom 27 script.second_left script.first_leaves }
{}

/// And leaves the world that was written by hand: a page is charged once, whichever pins and areas it is pinned by, it
/// keeps its frame as long as one is left or a page table pins it, and an area with a pin waits.
pub fn pin_script_leaves_its_worlds()
    ensures ready { world_of script.settings script.beginning ≡ script.ready }
    ensures pinned { world_from 20 script.ready script.pinning ≡ script.pinned }
    ensures kept { world_from 23 script.pinned script.keeping ≡ script.kept }
    ensures one_left { world_from 27 script.kept script.unpinning ≡ script.one_left }
    ensures let_go { world_from 29 script.one_left script.letting_go ≡ script.let_go }
    ensures pinned_anew { world_from 30 script.let_go script.pinning_anew ≡ script.pinned_anew }
    ensures translated { world_from 23 script.pinned script.translating ≡ script.translated }
    ensures parted { world_from 27 script.translated script.parting ≡ script.ready }
    ensures leaving { world_from 23 script.pinned script.waiting ≡ script.leaving }
    ensures narrow { world_from 25 script.leaving script.unpinning_wide ≡ script.narrow }
    ensures second_left { world_from 26 script.narrow script.second_leaves ≡ script.second_left }
    ensures first_left { world_from 27 script.second_left script.first_leaves ≡ script.first_left }
{}

/// What is read through pins, what is charged and how many frames are free; and which spans are told to who holds a pin
/// in an area that is leaving.
pub fn pins_are_read_and_noticed()
    ensures pinned { AreAnsweredIn script.pinned script.looks_in_pinned }
    ensures kept { AreAnsweredIn script.kept script.looks_in_kept }
    ensures one_left { AreAnsweredIn script.one_left script.looks_in_one_left }
    ensures let_go { AreAnsweredIn script.let_go script.looks_in_let_go }
    ensures pinned_anew { AreAnsweredIn script.pinned_anew script.looks_in_pinned_anew }
    ensures leaving { AreNoticedIn script.leaving script.notices_in_leaving }
    ensures all_leaving { ApplyToNoticesIn script.leaving script.notices_in_leaving }
    ensures others { AreNoticedIn script.others_leaving script.notices_to_others }
    ensures live { AreNoticedIn script.pinned script.notices_in_pinned }
    ensures narrow { AreNoticedIn script.narrow script.notices_in_narrow }
{}

/// Each of the three events has one answer, and takes no frame; the frame of a pinned page is given to nobody, and is
/// free when the last pin is gone.
pub fn pin_records_are_lawful()
    ensures kinds { NoneIsLawful 23 script.pinned script.other_kinds }
    ensures refusals { AreLawful 23 script.pinned script.refusals }
    ensures not_refused { NoneIsLawful 23 script.pinned script.not_refused }
    ensures causes { NoneIsLawful 23 script.pinned script.other_causes }
    ensures not_to_be { NoneIsLawful 23 script.pinned script.not_to_be_refused }
    ensures tables { NoneIsLawful 23 script.pinned script.moves_tables }
    ensures given { NoneIsLawful 27 script.kept script.given_out }
    ensures free { AreLawful 30 script.let_go script.given_out }
    ensures waits { NoneIsLawful 30 script.let_go script.waits_for_none }
    ensures waits_for_others { NoneIsLawful 23 script.pinned script.waits_for_others }
    ensures goes_at_once { AreLawful 23 script.pinned script.goes_at_once }
    ensures must_wait { NoneIsLawful 25 script.leaving script.does_not_wait }
{}

/// Pins and their ends are refused by each row of their refusals, and the first that applies is answered.
pub fn pins_are_refused()
    ensures all_ready { ApplyIn script.ready records.pins_in_ready }
    ensures first_ready { AreRefusedIn script.ready records.pins_in_ready }
    ensures all_pinned { ApplyIn script.pinned records.pins_in_pinned }
    ensures first_pinned { AreRefusedIn script.pinned records.pins_in_pinned }
    ensures all_given_up { ApplyIn records.given_up records.pins_in_given_up }
    ensures all_leaving { ApplyIn records.with_leaving records.pins_in_leaving }
    ensures first_leaving { AreRefusedIn records.with_leaving records.pins_in_leaving }
    ensures all_unpins { ApplyIn script.pinned records.unpins }
    ensures first_unpins { AreRefusedIn script.pinned records.unpins }
    ensures all_holders { ApplyIn script.pinned records.of_holders }
    ensures first_holders { AreRefusedIn script.pinned records.of_holders }
    ensures all_closed { ApplyIn records.closed records.of_closed }
    ensures first_closed { AreRefusedIn records.closed records.of_closed }
{}

/// An access object holds at most 65,535 pins, of which equal ones count each.
pub fn pins_have_a_limit()
    ensures at { ApplyIn (records.with_pins 65535) records.pins_at_limit }
    ensures below { ApplyIn (records.with_pins 65534) records.pins_below_limit }
{}

/// Accesses through pins are refused by each row, for reads and writes alike; not where their areas are leaving.
pub fn held_accesses_are_refused()
    ensures all_writes { ApplyIn script.pinned records.writes_in_pinned }
    ensures first_writes { AreRefusedIn script.pinned records.writes_in_pinned }
    ensures all_for_reads { ApplyIn script.one_left records.writes_in_one_left }
    ensures first_for_reads { AreRefusedIn script.one_left records.writes_in_one_left }
    ensures reads { ApplyToQuestionsIn script.pinned records.reads_in_pinned }
    ensures reads_left { ApplyToQuestionsIn script.one_left records.reads_in_one_left }
    ensures all_leaving { ApplyIn script.leaving records.events_in_leaving }
    ensures all_others_leaving { ApplyIn script.others_leaving records.detachments_in_leaving }
    ensures reads_leaving { ApplyToQuestionsIn script.leaving records.reads_in_leaving }
{}
