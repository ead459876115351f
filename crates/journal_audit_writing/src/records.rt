//! Records, appended to bytes.

ghost use Rattle.std.specs.Prelude.{◌≡◌, ◌^◌, ◌<◌, ◌++◌, true, List, ℕ, OnOk, OnErr, length};
ghost use Rattle.journal_audit_bytes.specs.Journal.{HasSpelling, SpellsRecord};
ghost use Rattle.journal_audit_bytes.specs.declared.version.Version.TheVariants.{Two};
ghost use Rattle.journal_audit_writing.specs.Failing.{OnUnspelt};
ghost use Rattle.journal_audit_writing.specs.Texts.{RecordFits, is_kept_event, record_text};
ghost use Rattle.journal_audit_writing.specs.Writing.{Appends};

use crate::events::{spell_event, spell_frames, spell_reply};
use crate::number::{Number, Spell};
use crate::spelling::is_spelt;
use iofd_words::{Config, NoMemory, Record};
use std::alloc::Allocator;

/// Why a record wasn't written.
#[derive(Clone, Copy)]
pub enum WriteError {
    /// The record has no spelling.
    Unspelt,
    /// There was no memory for its bytes.
    NoMemory,
}

// Appends a record.
fn spell_record<A: Allocator, B: Allocator>(
    record: &Record<B>,
    out: &mut Vec<u8, A>,
) -> Result<(), NoMemory>
    requires event { is_kept_event «record».now.event ≡ true }
    requires taken { length «record».now.taken < 2 ^ 16 }
    requires given { length «record».now.given < 2 ^ 16 }
    ensures bytes { Appends result out.old.items out.new.items (record_text «record».now) }
    ensures fits { OnOk result (RecordFits «record».now) }
{
    Number::U16(record.pass().0).spell(out)?;
    spell_event(out, record.event())?;
    spell_reply(out, &record.reply())?;
    spell_frames(out, record.taken())?;
    spell_frames(out, record.given())
}

/// Appends the bytes of a record of a journal of version 2 with this configuration. The error is Unspelt where the
/// record has no spelling: its pass isn't below the configuration's, its flags have an unknown bit, an address that
/// they don't fix isn't 0, a list is longer than its number can say, or a fault isn't the one that the event has for
/// its reason. It is NoMemory where memory was refused. An error leaves the bytes as they were.
pub fn write_record<A: Allocator, B: Allocator, C: Allocator>(
    config: &Config<A>,
    record: &Record<B>,
    out: &mut Vec<u8, C>,
) -> Result<(), WriteError>
    ensures ok { OnOk result ((text : List ℕ) × SpellsRecord Two config.now «record».now text
        × (out.new.items ≡ out.old.items ++ text)) }
    ensures unspelt { OnUnspelt result (¬ HasSpelling Two config.now «record».now) }
    ensures err { OnErr result (out.new.items ≡ out.old.items) }
{
    if !is_spelt(config, record) {
        return Err(WriteError::Unspelt);
    }
    let length = out.len();
    match spell_record(record, out) {
        Ok(()) => Ok(()),
        Err(NoMemory) => {
            out.truncate(length);
            Err(WriteError::NoMemory)
        }
    }
}
