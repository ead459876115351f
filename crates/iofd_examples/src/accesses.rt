//! Access objects. Each is the contract of a function that does nothing.

ghost use Rattle.std.specs.Prelude.{◌≡◌};
ghost use Rattle.iofd_examples.specs.AccessObjectRecords as records;
ghost use Rattle.iofd_examples.specs.AccessScript as script;
ghost use Rattle.iofd_examples.specs.Words.{ApplyIn, AreAnsweredIn, AreLawful, AreRefusedIn, NoneIsLawful};
ghost use Rattle.iofd_steps.specs.Run.{IsRun, IsRunFrom, world_from, world_of};

/// Each piece of the script is a run from the world that those before it leave. The position is that of its first
/// record.
pub fn access_script_is_a_run()
    ensures beginning { IsRun script.settings script.beginning }
    ensures mapping { IsRunFrom 10 script.attached script.mapping }
    ensures unmapping { IsRunFrom 13 script.mapped script.unmapping }
    ensures changing { IsRunFrom 10 script.attached script.changing }
{}

/// And leaves the world that was written by hand; an access object that is attached holds no page.
pub fn access_script_leaves_its_worlds()
    ensures attached { world_of script.settings script.beginning ≡ script.attached }
    ensures mapped { world_from 10 script.attached script.mapping ≡ script.mapped }
    ensures unmapped { world_from 13 script.mapped script.unmapping ≡ script.unmapped }
    ensures changed { world_from 10 script.attached script.changing ≡ script.changed }
    ensures looks { AreAnsweredIn script.mapped script.looks_in_mapped }
{}

/// A new access object may get any unused id; each of the three events has one kind of answer.
pub fn access_records_are_lawful()
    ensures ids { AreLawful 10 script.attached script.new_ids }
    ensures other_ids { NoneIsLawful 10 script.attached script.other_ids }
    ensures kinds { NoneIsLawful 10 script.attached script.other_kinds }
    ensures refusals { AreLawful 10 script.attached script.refusals }
    ensures not_refused { NoneIsLawful 10 script.attached script.not_refused }
    ensures causes { NoneIsLawful 10 script.attached script.other_causes }
    ensures not_to_be { NoneIsLawful 10 script.attached script.not_to_be_refused }
    ensures tables { NoneIsLawful 10 script.attached script.moves_tables }
    ensures waits { NoneIsLawful 13 script.mapped script.waits_for_nothing }
{}

/// They are refused by each row of their refusals, and the first that applies is answered; so are those that meet an
/// access object.
pub fn access_objects_are_refused()
    ensures all_creations { ApplyIn script.attached records.creations }
    ensures first_creations { AreRefusedIn script.attached records.creations }
    ensures all_attachments { ApplyIn script.attached records.attachments }
    ensures first_attachments { AreRefusedIn script.attached records.attachments }
    ensures all_detachments { ApplyIn script.attached records.detachments }
    ensures first_detachments { AreRefusedIn script.attached records.detachments }
    ensures all_ends { ApplyIn script.attached records.ends }
    ensures first_ends { AreRefusedIn script.attached records.ends }
    ensures all_others { ApplyIn script.attached records.of_other_kinds }
    ensures first_others { AreRefusedIn script.attached records.of_other_kinds }
    ensures all_closed { ApplyIn records.closed records.of_closed }
    ensures first_closed { AreRefusedIn records.closed records.of_closed }
    ensures all_page_tables { ApplyIn records.with_page_tables records.ends_of_page_tables }
    ensures first_page_tables { AreRefusedIn records.with_page_tables records.ends_of_page_tables }
{}
