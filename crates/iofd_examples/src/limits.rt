//! Numbers, and limits at their edges. Each is the contract of a function that does nothing.

ghost use Rattle.iofd_examples.specs.FullRecords as full;
ghost use Rattle.iofd_examples.specs.NumberRecords as numbers;
ghost use Rattle.iofd_examples.specs.Words.{ApplyIn};

/// A file has at most 65,535 objects.
pub fn objects_have_a_limit()
    ensures at { ApplyIn (full.with_objects_more 65521) full.objects_at_limit }
    ensures closed { ApplyIn full.closed_at_limit full.of_closed }
    ensures below { ApplyIn (full.with_objects_more 65520) full.objects_below_limit }
{}

/// An address space has at most 65,535 areas.
pub fn areas_have_a_limit()
    ensures maps { ApplyIn (full.with_areas_more 65534) full.maps_at_limit }
    ensures copies { ApplyIn (full.with_areas_more 65534) full.copies_at_limit }
    ensures below { ApplyIn (full.with_areas_more 65533) full.areas_below_limit }
{}

/// Refusals, errnos and fault reasons have the numbers of the table, of Linux and of VT-d.
pub fn numbers_are_those_of_the_standards()
    ensures refusals { numbers.AreNumbered numbers.refusals }
    ensures errnos { numbers.AreErrnos numbers.errnos }
    ensures reasons { numbers.AreReasons numbers.reasons }
{}

/// The first field of the settings that is outside its limits is told.
pub fn settings_have_limits()
    ensures { numbers.AreOpened numbers.openings }
{}
