//! What a device's port asks for alone, since a port keeps translations that others must not make stale unseen.

ghost use Rattle.std.specs.Prelude.{◌≡◌};
ghost use Rattle.guarded_core.specs.OfPort.{event_of_port, query_of_port};

use iofd_words::{Event, Query};
use std::alloc::Allocator;

/// Whether the event is one that a port alone makes: its device's attachment, detachment, flush or write.
pub fn is_event_of_port<A: Allocator>(event: &Event<A>) -> bool
    ensures { result ≡ event_of_port event.now }
{
    match event {
        Event::Attach(_, _) | Event::Detach(_) | Event::Flush(_) | Event::DeviceWrite(_, _, _) => {
            true
        }
        _ => false,
    }
}

/// Whether the question is one that a port alone asks: its device's read, by a walk or at a frame that was kept, or a
/// walk.
pub fn is_query_of_port(query: &Query) -> bool
    ensures { result ≡ query_of_port query.now }
{
    match query {
        Query::DeviceRead { .. } | Query::WalkFor { .. } | Query::CachedRead { .. } => true,
        _ => false,
    }
}
