//! What holds of every interleaving of a server's callers and of devices that keep translations. Nothing here runs.

ghost use Rattle.iofd_interleavings.specs.Interleavings.{EveryInterleaving};

use std::alloc::Allocator;

/// The law of every interleaving. Callers make records, one after another, and each device keeps a cache of
/// translations, out of which it may read and write without asking; it begins empty, and is empty whenever the device
/// is flushed, attached or detached. Of every list of such steps from the opening:
///
/// 1. the records are a run, those of writes out of a cache too;
/// 2. every answer that a device has, out of its cache too, is one that the policy allows in the world of that step;
/// 3. every device's cache is sound after every step, whoever made it: an entry has an area of the address space to
///    which the device is attached, live, or leaving and owed by this device, with just these rights, and the pin of
///    its page names its frame; with no attachment the cache is empty;
/// 4. every frame that is given out, to a user or for a table, was free at that step and in no cache;
/// 5. a frame is reached by at most one user's page, or is one table's frame, never both; no pin names a table's
///    frame; page and pins of one frame are of one user;
/// 6. where one run begins another and the device has as many turns (flushes, attachments, detachments) in both, what
///    is sound after the first is sound after the second;
/// 7. of any run and any sound set of entries: an access within the page of an entry that gives the right passes at the
///    entry's frame.
pub fn interleavings<A: Allocator>()
    ensures { EveryInterleaving A }
{
    iofd_interleavings::interleavings::<A>();
}
