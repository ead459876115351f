//! A whole journal.

ghost use Rattle.std.specs.Prelude.{◌≡◌, ◌≢◌, ◌++◌, List, ℕ, IfOk, OnErr};
ghost use Rattle.iofd_words.specs.World.{opening};
ghost use Rattle.journal_audit.specs.Verdict.{IsVerdict};
ghost use Rattle.journal_audit.specs.declared.verdict.Verdict.{Verdict};
ghost use Rattle.journal_audit.specs.declared.verdict.Verdict.TheVariants.{Torn};
ghost use Rattle.journal_audit_bytes.specs.Head.{BeginWithUsers, SpellsHead};
ghost use Rattle.journal_audit_bytes.specs.Version.{mark};
ghost use Rattle.journal_audit_bytes.specs.declared.version.Version.TheVariants.{One, Two};

use crate::next::{Next, read_next};
use crate::verdict::Verdict;
use iofd_words::NoMemory;
use journal_audit_bytes::{ReadError, Version, read_head};
use journal_audit_world::World;
use std::alloc::Allocator;

/// What these bytes are, by the definitions alone: a journal of either version whose records are a run, and how many;
/// or which record is the first that doesn't go on with the run; or where no record, or no head, begins. Its only error
/// is want of memory, of bytes that begin with a mark, the size of a pool and the limits of users alone. No clause says
/// how much it takes; that is by what the records hold and leave, and never by a number that stands in them.
pub fn audit<A: Allocator + Copy>(alloc: A, bytes: &[u8]) -> Result<Verdict, NoMemory>
    ensures found { IfOk result (λ verdict. IsVerdict A bytes.now verdict) }
    ensures only { (v : Verdict) → IsVerdict A bytes.now v → IfOk result (λ verdict. verdict ≡ v) }
    // Bytes that don't even begin so are judged without memory.
    ensures memory { OnErr result (BeginWithUsers bytes.now) }
    // Bytes of version 1 that aren't torn are the same with version 2's mark in place of their own.
    ensures versions { (rest : List ℕ) (v : Verdict) → ((offset : ℕ) → v ≢ Torn offset) →
        IsVerdict A (mark One ++ rest) v → IsVerdict A (mark Two ++ rest) v }
{
    match read_head(alloc, bytes) {
        Ok((version, config, rest)) => {
            let mut world = World::opening(alloc, config);
            go_through(alloc, version, &mut world, bytes, rest)
        }
        Err(ReadError::Torn) => Ok(Verdict::Torn { offset: 0 }),
        Err(ReadError::Memory) => Err(NoMemory),
    }
}

// The same of bytes that begin with a head of this version: it goes from record to record of the rest.
fn go_through<A: Allocator + Copy>(
    alloc: A,
    version: Version,
    world: &mut World<A>,
    bytes: &[u8],
    records: &[u8],
) -> Result<Verdict, NoMemory>
    requires opening { world.old ≡ opening world.old.settings }
    requires head { (text : List ℕ) × SpellsHead version world.old.settings text
        × (bytes.now ≡ text ++ records.now) }
    ensures { IfOk result (λ verdict. IsVerdict A bytes.now verdict) }
{
    let mut rest = records;
    let mut index = 0;
    while !rest.is_empty() {
        let (found, behind) = read_next(alloc, version, index as u64, world, rest)?;
        match found {
            Next::Follows => {
                rest = behind;
                index += 1;
            }
            Next::Not => return Ok(Verdict::NotRun { index }),
            Next::Torn => {
                return Ok(Verdict::Torn {
                    offset: bytes.len() - rest.len(),
                });
            }
        }
    }
    Ok(Verdict::Run { records: index })
}
