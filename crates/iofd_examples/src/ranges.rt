//! Ranges of addresses at their ends. Each is the contract of a function that does nothing.

ghost use Rattle.std.specs.Prelude.{◌≡◌};
ghost use Rattle.iofd_examples.specs.RangeRecords as records;
ghost use Rattle.iofd_examples.specs.ReadyWorld.{ready};
ghost use Rattle.iofd_examples.specs.SecondScript.{shared};
ghost use Rattle.iofd_examples.specs.Words.{ApplyIn, AreLawful, NoneIsLawful, file, id};
ghost use Rattle.iofd_steps.specs.Look.{AreUsableRanges};
ghost use Rattle.iofd_steps.specs.Run.{IsRunFrom, world_from};
ghost use Rattle.iofd_words.specs.View.{view};

/// A list of no ranges takes those before it away. A span may not lie over a gap between two ranges, and may where they
/// touch.
pub fn addresses_are_chosen_in_the_list()
    ensures lifting { IsRunFrom 41 ready records.lifting }
    ensures lifted { world_from 41 ready records.lifting ≡ records.lifted }
    ensures outside { AreLawful 42 records.lifted records.outside_the_list }
    ensures inside { AreLawful 41 ready records.in_the_list }
    ensures inside_lifted { AreLawful 42 records.lifted records.in_the_list }
    ensures not_outside { NoneIsLawful 41 ready records.outside_the_list }
    ensures gap { NoneIsLawful 41 records.gapped records.over_the_border }
    ensures beside { AreLawful 41 records.gapped records.beside_the_gap }
    ensures border { AreLawful 41 records.touching records.over_the_border }
    ensures all_of_three { ApplyIn records.gapped records.refusals_of_three }
    ensures all_of_three_touching { ApplyIn records.touching records.refusals_of_three }
{}

/// The least address, for which frames are asked, may lie behind a span that a device keeps.
pub fn least_address_lies_behind_what_is_kept()
    ensures all_behind { ApplyIn records.kept_to_the_border records.refusals_behind }
    ensures all_before { ApplyIn records.kept_elsewhere records.refusals_before }
{}

/// An UNMAP of every address takes an area on the last page.
pub fn every_address_is_named()
    ensures all_of_it { AreLawful 30 records.at_the_top records.all_of_it }
    ensures none { NoneIsLawful 30 records.at_the_top records.none_of_it }
    ensures refusals { ApplyIn records.at_the_top records.refusals_at_the_top }
{}

/// Ranges that adjoin or overlap, that are turned or that lack a number aren't the usable ones.
pub fn usable_ranges_are_merged()
    ensures adjoining { AreUsableRanges (view shared) (file 1) (id 5) records.adjoining → ⊥ }
    ensures overlapping { AreUsableRanges (view shared) (file 1) (id 5) records.overlapping → ⊥ }
    ensures turned { AreUsableRanges (view shared) (file 1) (id 5) records.turned → ⊥ }
    ensures few { AreUsableRanges (view shared) (file 1) (id 5) records.one_too_few → ⊥ }
{}
