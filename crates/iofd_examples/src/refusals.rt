//! For which causes events are refused in worlds that were written by hand, by the tables of events with the causes
//! that apply to each. Each is the contract of a function that does nothing.

ghost use Rattle.iofd_examples.specs.AccessRecords as accesses;
ghost use Rattle.iofd_examples.specs.AllowRecords as ranges;
ghost use Rattle.iofd_examples.specs.AttachRecords as attachments;
ghost use Rattle.iofd_examples.specs.CopyRecords as copies;
ghost use Rattle.iofd_examples.specs.MapRecords as maps;
ghost use Rattle.iofd_examples.specs.ObjectRecords as objects;
ghost use Rattle.iofd_examples.specs.UnmapRecords as unmaps;
ghost use Rattle.iofd_examples.specs.ReadyWorld as world;
ghost use Rattle.iofd_examples.specs.SecondScript as script;
ghost use Rattle.iofd_examples.specs.Words.{ApplyIn, AreRefusedIn};

/// A MAP is refused by each row of the refusals, and the first that applies is answered.
pub fn maps_are_refused()
    ensures all { ApplyIn script.shared maps.refusals }
    ensures first { AreRefusedIn script.shared maps.refusals }
    ensures all_chosen { ApplyIn world.ready maps.refusals_of_chosen }
    ensures first_chosen { AreRefusedIn world.ready maps.refusals_of_chosen }
    ensures all_near_and_far { ApplyIn maps.near_and_far maps.refusals_near_and_far }
    ensures first_near_and_far { AreRefusedIn maps.near_and_far maps.refusals_near_and_far }
    ensures all_far { ApplyIn maps.far maps.refusals_far }
    ensures first_far { AreRefusedIn maps.far maps.refusals_far }
    ensures all_without_free { ApplyIn world.without_free maps.refusals_without_free }
    ensures first_without_free { AreRefusedIn world.without_free maps.refusals_without_free }
{}

/// A COPY is refused by each row of the refusals, and the first that applies is answered.
pub fn copies_are_refused()
    ensures all { ApplyIn script.shared copies.refusals }
    ensures first { AreRefusedIn script.shared copies.refusals }
    ensures all_leaving { ApplyIn script.owing copies.refusals_of_leaving }
    ensures first_leaving { AreRefusedIn script.owing copies.refusals_of_leaving }
    ensures all_beside { ApplyIn copies.beside copies.refusals_beside }
    ensures first_beside { AreRefusedIn copies.beside copies.refusals_beside }
{}

/// An UNMAP is refused by each row of the refusals, and the first that applies is answered.
pub fn unmaps_are_refused()
    ensures all { ApplyIn script.shared unmaps.refusals }
    ensures first { AreRefusedIn script.shared unmaps.refusals }
    ensures all_leaving { ApplyIn script.owing unmaps.refusals_of_leaving }
    ensures first_leaving { AreRefusedIn script.owing unmaps.refusals_of_leaving }
{}

/// An ALLOW_IOVAS is refused by each row of the refusals, and the first that applies is answered.
pub fn allowed_ranges_are_refused()
    ensures all { ApplyIn script.shared ranges.refusals }
    ensures first { AreRefusedIn script.shared ranges.refusals }
{}

/// An attachment is refused by each row of the refusals, and the first that applies is answered.
pub fn attachments_are_refused()
    ensures all { ApplyIn world.ready attachments.attachments }
    ensures first { AreRefusedIn world.ready attachments.attachments }
    ensures all_without_free { ApplyIn world.without_free attachments.attachments_without_free }
    ensures first_without_free { AreRefusedIn world.without_free attachments.attachments_without_free }
    ensures all_with_one_free { ApplyIn world.with_one_free attachments.attachments_with_one_free }
    ensures first_with_one_free { AreRefusedIn world.with_one_free attachments.attachments_with_one_free }
    ensures all_with_pinned { ApplyIn world.with_pinned attachments.attachments_with_pinned }
    ensures first_with_pinned { AreRefusedIn world.with_pinned attachments.attachments_with_pinned }
{}

/// A HWPT_ALLOC is refused by each row of the refusals, and the first that applies is answered.
pub fn page_tables_are_refused()
    ensures all { ApplyIn world.ready attachments.allocations }
    ensures first { AreRefusedIn world.ready attachments.allocations }
{}

/// A detachment or a flush is refused by each row of the refusals, and the first that applies is answered.
pub fn detachments_are_refused()
    ensures all { ApplyIn world.ready attachments.detachments }
    ensures first { AreRefusedIn world.ready attachments.detachments }
    ensures all_flushes { ApplyIn world.ready attachments.flushes }
    ensures first_flushes { AreRefusedIn world.ready attachments.flushes }
{}

/// What makes objects, and takes objects and files away, is refused by each row of its refusals, and the first that
/// applies is answered.
pub fn objects_are_refused()
    ensures all { ApplyIn world.ready objects.refusals }
    ensures first { AreRefusedIn world.ready objects.refusals }
    ensures all_closed { ApplyIn world.with_closed objects.refusals_of_closed }
    ensures first_closed { AreRefusedIn world.with_closed objects.refusals_of_closed }
    ensures all_after_close { ApplyIn script.parted objects.refusals_after_close }
    ensures first_after_close { AreRefusedIn script.parted objects.refusals_after_close }
    ensures all_in_shared { ApplyIn script.shared objects.refusals_in_shared }
    ensures first_in_shared { AreRefusedIn script.shared objects.refusals_in_shared }
{}

/// What changes users' memory is refused by each row of the refusals, and the first that applies is answered.
pub fn accesses_are_refused()
    ensures all { ApplyIn world.ready accesses.of_users }
    ensures first { AreRefusedIn world.ready accesses.of_users }
    ensures all_without_free { ApplyIn world.without_free accesses.of_users_without_free }
    ensures first_without_free { AreRefusedIn world.without_free accesses.of_users_without_free }
    ensures all_with_one_free { ApplyIn world.with_one_free accesses.of_users_with_one_free }
    ensures first_with_one_free { AreRefusedIn world.with_one_free accesses.of_users_with_one_free }
{}

/// A device's write is refused by each row of the refusals, and the first that applies is answered.
pub fn device_writes_are_refused()
    ensures all { ApplyIn world.ready accesses.of_devices }
    ensures first { AreRefusedIn world.ready accesses.of_devices }
{}
