//! Page tables that wait for leaving areas. Each is the contract of a function that does nothing.

ghost use Rattle.iofd_examples.specs.LeavingRecords as records;
ghost use Rattle.iofd_examples.specs.Words.{ApplyIn, AreLawful, AreRefusedIn, NoneIsLawful};

/// An attachment and a HWPT_ALLOC are refused by that row at its place in their orders.
pub fn first_page_tables_wait_for_leaving_areas()
    ensures all { ApplyIn records.leaving records.refusals }
    ensures first { AreRefusedIn records.leaving records.refusals }
    ensures all_closed { ApplyIn records.closed records.of_closed }
    ensures first_closed { AreRefusedIn records.closed records.of_closed }
{}

/// A first page table isn't made, and a second one is.
pub fn page_tables_are_made_or_wait()
    ensures refused { AreLawful 41 records.leaving records.refused_tables }
    ensures made { NoneIsLawful 41 records.leaving records.made_tables }
    ensures second { AreLawful 41 records.leaving records.second_tables }
{}
