//! What a device's page is translated to.

ghost use Rattle.std.specs.Prelude.{◌≡◌};
ghost use Rattle.iofd_words.specs.Walk.{translation};
ghost use Rattle.server_state.specs.Seen.{seen};
ghost use Rattle.server_state.specs.Step.{IsKnown};

use iofd_words::{Attachment, DeviceNo, Translation};
use page_table::Walk;
use server_state::State;
use std::alloc::Allocator;

/// What the device's page at this address is translated to: the frame and the rights of the live area that maps it.
/// None where there is no such area or no attachment. It costs the levels of the page table, looks at no area and
/// changes nothing.
pub fn walk_for<A: Allocator>(
    state: &State<A>,
    device: DeviceNo,
    address: u64,
) -> Option<Translation>
    requires { IsKnown state.now }
    ensures { result ≡ translation (seen state.now) device address }
{
    let Some(attachment) = state.attachment_of(device) else {
        return None;
    };
    let Attachment { file, hwpt, .. } = *attachment;
    match state.page_tables.walk(&state.pool, file, hwpt, address) {
        Walk::Hit { frame, rights } => Some(Translation { frame, rights }),
        Walk::Beyond | Walk::None => None,
    }
}
