//! A script of what devices owe, worked by hand in pieces, each the contract of a function that does nothing.

ghost use Rattle.std.specs.Prelude.{◌≡◌};
ghost use Rattle.iofd_examples.specs.DebtScript as script;
ghost use Rattle.iofd_examples.specs.Words.{AreAnsweredIn, MayComeIn};
ghost use Rattle.iofd_steps.specs.Run.{IsRun, IsRunFrom, world_from, world_of};

/// Each piece of the script is a run from the world that those before it leave. The position is that of its first
/// record.
pub fn debt_script_is_a_run()
    ensures beginning { IsRun script.settings script.beginning }
    ensures parting { IsRunFrom 11 script.joined script.parting }
    ensures first_leaves { IsRunFrom 11 script.joined script.first_leaves }
    ensures detaching { IsRunFrom 12 script.owing script.detaching }
    ensures both_leave { IsRunFrom 13 script.detached script.both_leave }
    ensures paying { IsRunFrom 14 script.leaving script.paying }
    ensures last_flush { IsRunFrom 17 script.one_owes script.last_flush }
    ensures everything_goes { IsRunFrom 18 script.none_owes script.everything_goes }
    ensures attaching { IsRunFrom 17 script.unattached_owes script.attaching }
    ensures joining { IsRunFrom 17 script.unattached_owes script.joining }
{}

/// And leaves the world that was written by hand.
pub fn debt_script_leaves_its_worlds()
    ensures joined { world_of script.settings script.beginning ≡ script.joined }
    ensures parted { world_from 11 script.joined script.parting ≡ script.parted }
    ensures owing { world_from 11 script.joined script.first_leaves ≡ script.owing }
    ensures detached { world_from 12 script.owing script.detaching ≡ script.detached }
    ensures leaving { world_from 13 script.detached script.both_leave ≡ script.leaving }
    ensures one_owes { world_from 14 script.leaving script.paying ≡ script.one_owes }
    ensures none_owes { world_from 17 script.one_owes script.last_flush ≡ script.none_owes }
    ensures gone { world_from 18 script.none_owes script.everything_goes ≡ script.gone }
    // an attachment pays, as a flush does
    ensures attached { world_from 17 script.unattached_owes script.attaching ≡ script.none_owes }
    ensures to_table { world_from 17 script.unattached_owes script.joining ≡ script.none_owes }
{}

/// What devices read, and what may come of their writes.
pub fn debt_script_reads()
    ensures joined { AreAnsweredIn script.joined script.looks_in_joined }
    ensures leaving { AreAnsweredIn script.leaving script.looks_in_leaving }
    ensures joined_writes { MayComeIn script.joined script.writes_in_joined }
    ensures leaving_writes { MayComeIn script.leaving script.writes_in_leaving }
    ensures one_owes_writes { MayComeIn script.one_owes script.writes_when_one_owes }
    ensures none_owes_writes { MayComeIn script.none_owes script.writes_when_none_owes }
{}
