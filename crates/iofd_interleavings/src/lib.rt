//! The law of every interleaving: what holds whatever records callers make, one after another, while devices keep
//! translations and answer accesses by them. The definitions with a cache for each device; nothing here runs.
#![tactic(auto)]

ghost use Rattle.std.specs.Prelude.{◌≡◌, List, map};
ghost use Rattle.iofd_steps.specs.Run.{IsRun};
ghost use Rattle.iofd_words.specs.Record.{Record};
ghost use Rattle.iofd_words.specs.Settings.{Settings};
ghost use Rattle.iofd_interleavings.specs.Interleavings.{EveryInterleaving};
ghost use Rattle.iofd_interleavings.specs.Steps.{AreSteps, Made, records_after};

use std::alloc::Allocator;

/// Of every list of steps: the records are a run; what devices are answered, out of their caches too, is what the
/// policy allows; every cache is sound; what is given out was free and in no cache; and frames are one user's or one
/// table's. Of any run and any sound set of entries: it stays sound as long as the device has no turn, and its entries
/// pass; and what a walk finds may be added to it. The sentences stand in `EveryInterleaving`.
pub fn interleavings<A: Allocator>()
    ensures { EveryInterleaving A }
{}

/// Every run is the records of a list of steps.
pub fn runs_are_steps<A: Allocator>()
    ensures { (settings : Settings) (records : List (Record A)) → IsRun settings records →
        AreSteps settings (map Made records) × (records_after (map Made records) ≡ records) }
{}
