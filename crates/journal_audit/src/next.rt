//! One record of a journal.

ghost use Rattle.std.specs.Prelude.{◌≡◌, ◌<◌, ◌⊎◌, IfNone, IfOk, IfSome, OnErr, length};
ghost use Rattle.iofd_words.specs.Record.{Record};
ghost use Rattle.journal_audit.specs.Next.{IsJudged, IsNext, Tells, next_of};
ghost use Rattle.journal_audit_bytes.specs.Reading.{raw_of};
ghost use Rattle.journal_audit_world.specs.Kept.{IsKept};

use crate::lawful::step;
use iofd_words::{Config, NoMemory, Record};
use journal_audit_bytes::{ReadError, SpelledRecord, Version, read_record, typed_reply};
use journal_audit_world::World;
use std::alloc::Allocator;

/// What stands at the front of the bytes.
#[derive(Clone, Copy)]
pub enum Next {
    /// A lawful record.
    Follows,
    /// A record that isn't lawful.
    Not,
    /// No record.
    Torn,
}

fn next_of(lawful: bool) -> Next
    ensures { result ≡ next_of lawful }
{
    if lawful { Next::Follows } else { Next::Not }
}

// The record that is told by what its bytes spell, if they tell one. The only error is want of memory, where it moved
// frames.
fn typed<A: Allocator>(
    alloc: A,
    config: &Config<A>,
    spelled: SpelledRecord<A>,
) -> Result<Option<Record<A>>, NoMemory>
    ensures told { IfOk result (λ typed. IfSome typed (λ told. Tells config.now (raw_of spelled) told)) }
    ensures none { IfOk result (λ typed.
        IfNone typed ((r : Record A) → Tells config.now (raw_of spelled) r → ⊥)) }
    ensures memory { OnErr result ((0 < length spelled.taken) ⊎ (0 < length spelled.given)) }
{
    let Some(reply) = typed_reply(config, &spelled.event, spelled.reply) else {
        return Ok(None);
    };
    let taken = spelled.taken.into_vec();
    let given = spelled.given.into_vec();
    let record = Record::new(alloc, spelled.pass, spelled.event, reply, taken, given)?;
    Ok(Some(record))
}

// Whether what the bytes spell tells a record that is lawful at this position. If so the world becomes the one after
// it.
fn judge<A: Allocator + Copy>(
    alloc: A,
    at: u64,
    world: &mut World<A>,
    spelled: SpelledRecord<A>,
) -> Result<bool, NoMemory>
    requires kept { IsKept at world.old }
    ensures { IfOk result (λ lawful. IsJudged A at world.old world.new (raw_of spelled) lawful) }
{
    match typed(alloc, &world.config, spelled)? {
        Some(record) => step(alloc, at, world, &record),
        None => Ok(false),
    }
}

/// What stands at the front of these bytes of a journal of this version, at this position, and the bytes behind it; all
/// of them where there is no record. If it is a lawful one the world becomes the one after it. The error is want of
/// memory; the world is in any state then.
pub fn read_next<'a, A: Allocator + Copy>(
    alloc: A,
    version: Version,
    at: u64,
    world: &mut World<A>,
    bytes: &'a [u8],
) -> Result<(Next, &'a [u8]), NoMemory>
    requires kept { IsKept at world.old }
    ensures { IfOk result (λ x. IsNext A version at world.old world.new bytes.now x.1.now x.0) }
{
    match read_record(alloc, version, world.config.passes(), bytes) {
        Ok((spelled, rest)) => {
            let lawful = judge(alloc, at, world, spelled)?;
            Ok((next_of(lawful), rest))
        }
        Err(ReadError::Torn) => Ok((Next::Torn, bytes)),
        Err(ReadError::Memory) => Err(NoMemory),
    }
}
