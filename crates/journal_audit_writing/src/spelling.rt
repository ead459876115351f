//! Which records have a spelling.

ghost use Rattle.std.specs.Prelude.{◌≡◌};
ghost use Rattle.std.specs.Bool.{MatchBool};
ghost use Rattle.journal_audit_writing.specs.Texts.{IsOwnReply, IsSpelt, is_kept_event};

use iofd_words::{Config, Event, Record, Reply};
use journal_audit_bytes::{fault_of, is_kept};
use std::alloc::Allocator;

#[tactic(auto, unfolding(journal_audit_bytes::specs::Format::is_kept))]
fn is_kept_event<A: Allocator>(event: &Event<A>) -> bool
    ensures { result ≡ is_kept_event event.now }
{
    match event {
        Event::Map(_, map) => is_kept(map.flags.0, map.iova.0),
        Event::Copy(_, copy) => is_kept(copy.flags.0, copy.dst_iova.0),
        Event::AllowIovas(_, _, ranges) => ranges.as_slice().len() < 0x1_0000_0000,
        _ => true,
    }
}

// Whether the reply is no fault, or the one that the event has for its reason.
fn is_own_reply<A: Allocator, B: Allocator>(
    config: &Config<A>,
    event: &Event<B>,
    reply: &Reply,
) -> bool
    ensures { MatchBool result (IsOwnReply config.now event.now reply.now)
        (¬ IsOwnReply config.now event.now reply.now) }
{
    match reply {
        Reply::Fault(fault) => match fault_of(config, event, fault.reason) {
            Some(own) => own == *fault,
            None => false,
        },
        _ => true,
    }
}

/// Whether the record has a spelling.
pub fn is_spelt<A: Allocator, B: Allocator>(config: &Config<A>, record: &Record<B>) -> bool
    ensures { MatchBool result (IsSpelt config.now «record».now) (¬ IsSpelt config.now «record».now) }
{
    record.pass().0 < config.passes()
        && is_kept_event(record.event())
        && is_own_reply(config, record.event(), &record.reply())
        && record.taken().len() < 0x1_0000
        && record.given().len() < 0x1_0000
}
