//! Tables that begin above 0, and those of two page tables. Each is the contract of a function that does nothing.

ghost use Rattle.std.specs.Prelude.{◌≡◌};
ghost use Rattle.iofd_examples.specs.TableScript as script;
ghost use Rattle.iofd_examples.specs.Words.{AreLawful, NoneIsLawful};
ghost use Rattle.iofd_steps.specs.Run.{IsRun, IsRunFrom, world_from, world_of};

/// Each piece of the script is a run from the world that those before it leave. The position is that of its first
/// record.
pub fn table_script_is_a_run()
    ensures beginning { IsRun script.settings script.beginning }
    ensures mapping { IsRunFrom 8 script.two_tables script.mapping }
    ensures unmapping { IsRunFrom 9 script.mapped script.unmapping }
    ensures parting { IsRunFrom 12 script.unmapped script.parting }
    ensures closing { IsRunFrom 15 script.parted script.closing }
{}

/// And leaves the world that was written by hand.
pub fn table_script_leaves_its_worlds()
    ensures two_tables { world_of script.settings script.beginning ≡ script.two_tables }
    ensures mapped { world_from 8 script.two_tables script.mapping ≡ script.mapped }
    ensures unmapped { world_from 9 script.mapped script.unmapping ≡ script.unmapped }
    ensures parted { world_from 12 script.unmapped script.parting ≡ script.parted }
    ensures closed { world_from 15 script.parted script.closing ≡ script.closed }
{}

/// A MAP takes frames for each page table, and gives none back; an UNMAP gives those back through which no page goes.
pub fn tables_move_with_their_pages()
    ensures elsewhere { AreLawful 8 script.two_tables script.mapping_elsewhere }
    ensures one_alone { NoneIsLawful 8 script.two_tables script.mapping_in_one }
    ensures map_gives { NoneIsLawful 8 script.two_tables script.mapping_gives }
    ensures given { AreLawful 11 script.paid script.given_back }
    ensures not_given { NoneIsLawful 11 script.paid script.not_given_back }
    ensures exchanged { NoneIsLawful 11 script.paid script.given_and_taken }
    ensures rising { NoneIsLawful 11 script.paid script.not_rising }
    ensures leaving { NoneIsLawful 11 script.both_leave script.given_of_leaving }
    ensures idle { NoneIsLawful 12 script.unmapped script.gives_idle }
    ensures idle_stay { AreLawful 12 script.unmapped script.gives_none }
    ensures apart { NoneIsLawful 11 script.apart script.given_of_others }
    ensures root_stays { NoneIsLawful 15 script.parted script.closing_keeps }
{}

/// A table has 512 places, from its first address on: of two areas over the border between two tables each keeps its
/// own, and both keep the one above.
pub fn tables_end_at_their_borders()
    ensures first { AreLawful 11 script.first_paid script.first_gives }
    ensures first_alone { NoneIsLawful 11 script.first_paid script.first_gives_others }
    ensures second { AreLawful 11 script.second_paid script.second_gives }
    ensures second_alone { NoneIsLawful 11 script.second_paid script.second_gives_others }
{}
