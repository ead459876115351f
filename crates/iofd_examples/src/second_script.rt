//! A second script that was worked by hand, in pieces, each the contract of a function that does nothing.

ghost use Rattle.std.specs.Prelude.{◌≡◌};
ghost use Rattle.iofd_examples.specs.SecondLooks as looks;
ghost use Rattle.iofd_examples.specs.SecondScript as script;
ghost use Rattle.iofd_examples.specs.Words.{ApplyToRangesIn, AreAnsweredIn, MayComeIn, file, id};
ghost use Rattle.iofd_steps.specs.Look.{AreUsableRanges};
ghost use Rattle.iofd_steps.specs.Run.{IsRun, IsRunFrom, world_from, world_of};
ghost use Rattle.iofd_words.specs.View.{view};

/// Each piece of the second script is a run from the world that those before it leave. The position is that of its
/// first record.
pub fn second_script_is_a_run()
    ensures beginning { IsRun script.settings script.beginning }
    ensures attaching { IsRunFrom 12 script.mapped script.attaching }
    ensures renewing { IsRunFrom 16 script.attached script.renewing }
    ensures rewriting { IsRunFrom 20 script.renewed script.rewriting }
    ensures sharing { IsRunFrom 20 script.renewed script.sharing }
    ensures unmapping { IsRunFrom 30 script.shared script.unmapping }
    ensures denying { IsRunFrom 32 script.owing script.denying }
    ensures flushing { IsRunFrom 32 script.owing script.flushing }
    ensures ending { IsRunFrom 33 script.paid script.ending }
    ensures copying { IsRunFrom 37 script.ended script.copying }
    ensures closing { IsRunFrom 37 script.ended script.closing }
    ensures destroying { IsRunFrom 42 script.unbound script.destroying }
    ensures parting { IsRunFrom 43 script.destroyed script.parting }
{}

/// And leaves the world that was written by hand.
pub fn second_script_leaves_its_worlds()
    ensures mapped { world_of script.settings script.beginning ≡ script.mapped }
    ensures attached { world_from 12 script.mapped script.attaching ≡ script.attached }
    ensures renewed { world_from 16 script.attached script.renewing ≡ script.renewed }
    ensures rewritten { world_from 20 script.renewed script.rewriting ≡ script.rewritten }
    ensures shared { world_from 20 script.renewed script.sharing ≡ script.shared }
    ensures owing { world_from 30 script.shared script.unmapping ≡ script.owing }
    ensures denied { world_from 32 script.owing script.denying ≡ script.owing }
    ensures paid { world_from 32 script.owing script.flushing ≡ script.paid }
    ensures ended { world_from 33 script.paid script.ending ≡ script.ended }
    ensures copied { world_from 37 script.ended script.copying ≡ script.copied }
    ensures unbound { world_from 37 script.ended script.closing ≡ script.unbound }
    ensures destroyed { world_from 42 script.unbound script.destroying ≡ script.destroyed }
    ensures parted { world_from 43 script.destroyed script.parting ≡ script.parted }
{}

/// What is answered to questions in these worlds.
pub fn second_script_reads()
    ensures mapped { AreAnsweredIn script.mapped looks.in_mapped }
    ensures attached { AreAnsweredIn script.attached looks.in_attached }
    ensures renewed { AreAnsweredIn script.renewed looks.in_renewed }
    ensures rewritten { AreAnsweredIn script.rewritten looks.in_rewritten }
    ensures shared { AreAnsweredIn script.shared looks.in_shared }
    ensures owing { AreAnsweredIn script.owing looks.in_owing }
    ensures paid { AreAnsweredIn script.paid looks.in_paid }
    ensures ended { AreAnsweredIn script.ended looks.in_ended }
    ensures copied { AreAnsweredIn script.copied looks.in_copied }
    ensures unbound { AreAnsweredIn script.unbound looks.in_unbound }
    ensures parted { AreAnsweredIn script.parted looks.in_parted }
{}

/// What may come of devices' writes in them.
pub fn second_script_writes()
    ensures attached { MayComeIn script.attached looks.writes_in_attached }
    ensures owing { MayComeIn script.owing looks.writes_in_owing }
    ensures paid { MayComeIn script.paid looks.writes_in_paid }
{}

/// Which addresses can be used, where memory is shared.
pub fn second_script_has_usable_ranges()
    ensures refusals { ApplyToRangesIn script.shared looks.ranges_in_shared }
    ensures file_1 { AreUsableRanges (view script.shared) (file 1) (id 1) looks.usable_by_file_1 }
    ensures file_2 { AreUsableRanges (view script.shared) (file 2) (id 1) looks.usable_by_file_2 }
    ensures unattached { AreUsableRanges (view script.shared) (file 1) (id 5) looks.all_usable }
{}
