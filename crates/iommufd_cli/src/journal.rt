//! The last line of a session: its journal.

ghost use Rattle.std.specs.Prelude.{◌≡◌, IfOk};
ghost use Rattle.iommufd_cli.specs.Journal.{IsJournalLine};

use crate::byte_digits::hex_digits;
use iofd_words::{Config, NoMemory, Record};
use journal_audit_writing::journal;
use std::alloc::Allocator;

/// The line with the journal, of version 2, of these records of a server of this configuration: `journal` and the bytes
/// in hex. A line feed ends it. The error is want of memory, or that a record has no spelling.
pub fn journal_line<A: Allocator + Copy>(
    alloc: A,
    config: &Config<A>,
    records: &[Record<A>],
) -> Result<Vec<u8, A>, NoMemory>
    ensures { IfOk result (λ text. IsJournalLine config.now records.now text.items) }
{
    let Ok(bytes) = journal(alloc, config, records) else {
        return Err(NoMemory);
    };
    let digits = hex_digits(alloc, &bytes)?;
    let mut text = Vec::from_slice(alloc, b"journal ")?;
    text.extend_from_slice(&digits)?;
    text.extend_from_slice(b"\n")?;
    Ok(text)
}
