//! Flush: a device has forgotten what it had cached.

ghost use Rattle.std.specs.Prelude.{◌≡◌, ℕ};
ghost use Rattle.iofd_refusals.specs.Checks.{flush_checks};
ghost use Rattle.iofd_words.specs.FirstTrue.{first_true};
ghost use Rattle.iofd_words.specs.declared.event.Event.TheVariants as event;
ghost use Rattle.server_state.specs.Seen.{seen};
ghost use Rattle.server_state.specs.Step.{IsKnown, Steps};

use iofd_words::{Cause, DeviceNo, Reply};
use server_state::{State, area_changes};
use std::alloc::Allocator;

/// Why it is refused, by the first row of the definitions that holds. None where nothing refuses it.
#[tactic(auto, unfolding(iofd_refusals::specs::Checks::flush_checks))]
pub fn refusal<A: Allocator>(state: &State<A>, device: DeviceNo) -> Option<Cause>
    requires { IsKnown state.now }
    ensures { result ≡ first_true (flush_checks (seen state.now) device) }
{
    if state.binding_of(device).is_none() {
        return Some(Cause::Id);
    }
    None
}

/// What it does where nothing refuses it: the device owes no area a flush any more.
pub fn commit<A: Allocator>(state: &mut State<A>, device: DeviceNo) -> Reply
    requires { IsKnown state.old }
    ensures { (at : ℕ) → Steps at (event.Flush device) state.old result state.new }
{
    if let Some((file, ioas)) = state.space_of(device) {
        area_changes::pay(&mut state.objects, file, ioas, device);
    }
    Reply::Done
}
