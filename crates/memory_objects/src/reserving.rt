//! Memory for the frames of several memory objects.

ghost use Rattle.std.specs.Prelude.{◌≡◌, false, IsTrue, OnOk, OnErr, vec_len, vec_capacity};
ghost use Rattle.memory_objects.specs.Objects.{MemoryGrows, all_pass, are_rising, gone_among, has_memory};
ghost use Rattle.memory_objects.specs.Objects.{object_at, passes, standing};

use crate::entry::Entry;
use crate::lookups;
use iofd_words::NoMemory;
use pinned_pages::Pages;
use std::alloc::Allocator;

/// Takes memory for the frames of the object of this number, if pinning it needs some.
fn reserve_one<A: Allocator>(
    entries: &mut Vec<Entry<Pages<A>>, A>,
    number: u64,
) -> Result<(), NoMemory>
    requires { IsTrue (are_rising entries.old.items) }
    ensures objects { MemoryGrows (standing entries.old.items) (standing entries.new.items) }
    ensures ok { OnOk result (IsTrue (passes has_memory (object_at (standing entries.new.items) number))) }
    ensures err { OnErr result (passes has_memory (object_at (standing entries.old.items) number) ≡ false) }
    ensures gone { gone_among entries.new.items ≡ gone_among entries.old.items }
    ensures rising { IsTrue (are_rising entries.new.items) }
    ensures len { vec_len entries.new ≡ vec_len entries.old }
    ensures capacity { vec_capacity entries.new ≡ vec_capacity entries.old }
{
    match lookups::place_of(entries, number) {
        Some(place) => {
            let entry = &mut entries[place];
            entry.pages.reserve()
        }
        None => Ok(()),
    }
}

/// Takes memory for the frames of each of these objects, where pinning it needs some. All else stays.
pub(crate) fn reserve_all<A: Allocator>(
    entries: &mut Vec<Entry<Pages<A>>, A>,
    numbers: &[u64],
) -> Result<(), NoMemory>
    requires { IsTrue (are_rising entries.old.items) }
    ensures objects { MemoryGrows (standing entries.old.items) (standing entries.new.items) }
    ensures ok { OnOk result (IsTrue (all_pass has_memory (standing entries.new.items) numbers.now)) }
    ensures err { OnErr result (all_pass has_memory (standing entries.old.items) numbers.now ≡ false) }
    ensures gone { gone_among entries.new.items ≡ gone_among entries.old.items }
    ensures rising { IsTrue (are_rising entries.new.items) }
    ensures len { vec_len entries.new ≡ vec_len entries.old }
    ensures capacity { vec_capacity entries.new ≡ vec_capacity entries.old }
{
    for number in numbers {
        reserve_one(entries, *number)?;
    }
    Ok(())
}
