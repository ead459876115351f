//! A whole journal.

ghost use Rattle.std.specs.Prelude.{◌≡◌, ◌++◌, List, ℕ, IfOk, OnOk};
ghost use Rattle.journal_audit_bytes.specs.Journal.{IsFirstUnspelt, IsJournal, SpellRecords};
ghost use Rattle.journal_audit_bytes.specs.declared.version.Version.TheVariants.{Two};
ghost use Rattle.journal_audit_writing.specs.Failing.{OnUnspeltAt};

use crate::head::write_head;
use crate::records::{WriteError, write_record};
use iofd_words::{Config, Record};
use std::alloc::Allocator;

/// Why a journal wasn't written.
#[derive(Clone, Copy, PartialEq, Eq, Debug)]
pub enum JournalError {
    /// The record at this index, counted from 0, is the first that has no spelling.
    Unspelt { index: usize },
    /// There was no memory for the bytes.
    NoMemory,
}

// Appends the bytes of each record in turn.
fn write_records<A: Allocator, B: Allocator, C: Allocator>(
    config: &Config<A>,
    records: &[Record<B>],
    out: &mut Vec<u8, C>,
) -> Result<(), JournalError>
    ensures ok { OnOk result ((text : List ℕ) × SpellRecords Two config.now records.now text
        × (out.new.items ≡ out.old.items ++ text)) }
    ensures unspelt { OnUnspeltAt result (λ index. IsFirstUnspelt Two config.now records.now index) }
{
    for (index, record) in records.iter().enumerate() {
        match write_record(config, record, out) {
            Ok(()) => {}
            Err(WriteError::Unspelt) => return Err(JournalError::Unspelt { index }),
            Err(WriteError::NoMemory) => return Err(JournalError::NoMemory),
        }
    }
    Ok(())
}

/// The journal, of version 2, of these records of a server of this configuration, in memory of this allocator: the
/// bytes of its head, and of each record in turn. The error says which record is the first that has no spelling, or
/// that memory was refused.
pub fn journal<A: Allocator, B: Allocator, C: Allocator>(
    alloc: A,
    config: &Config<B>,
    records: &[Record<C>],
) -> Result<Vec<u8, A>, JournalError>
    ensures ok { IfOk result (λ bytes. IsJournal Two config.now records.now bytes.items) }
    ensures unspelt { OnUnspeltAt result (λ index. IsFirstUnspelt Two config.now records.now index) }
{
    let mut bytes = Vec::new(alloc);
    match write_head(config, &mut bytes) {
        Ok(()) => {}
        Err(_) => return Err(JournalError::NoMemory),
    }
    match write_records(config, records, &mut bytes) {
        Ok(()) => Ok(bytes),
        Err(error) => Err(error),
    }
}
