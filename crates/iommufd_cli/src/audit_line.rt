//! An audit: from a journal's hex to the line that says what it is.

ghost use Rattle.std.specs.Prelude.{◌≡◌, IfErr, IfOk, IfSome, OnErr};
ghost use Rattle.std.specs.Io.BufRead.{strip_last};
ghost use Rattle.iommufd_cli.specs.Audit.{BeginsLine, IsAuditText, LeavesAudit, status_of, verdict_text};
ghost use Rattle.iommufd_cli.specs.Failures.{IsWithin};
ghost use Rattle.iommufd_cli.specs.Output.{IsFinal, Writes};
ghost use Rattle.iommufd_cli.specs.Replies.{line};

use crate::fault::CliFault;
use crate::input::read_all;
use crate::line::Line;
use crate::output::put;
use crate::replies::{bad_hex_line, no_memory_line};
use crate::run::told;
use hex::FromHexError;
use journal_audit::Verdict;
use std::alloc::Allocator;
use std::io::{self, Read, Write};

/// Audits the journal whose hex the reader gives, and writes one line: `run N`, `not a run: record N` or `torn at N`,
/// with exit status 0, 2 and 1; `bad hex` where that isn't hex, and `no memory`, with status 1. Digits are of both
/// cases, and one line feed may stand at the end.
///
/// The errors are a read that fails, an input of more than 2^24 bytes, and a write that fails. The first two write
/// nothing. At the last a beginning of the line was written, and never all of it.
pub fn audit<R: Read, W: Write, A: Allocator + Copy>(
    alloc: A,
    reader: &mut R,
    writer: &mut W,
) -> Result<u8, CliFault>
    ensures text { IfOk result (λ status. IfSome (R.remaining reader.old) (λ input.
        Writes (λ out. IsAuditText A input out status × IsWithin input out status) (W.contents writer.old)
        (W.contents writer.new))) }
    ensures fault { IfErr result (λ fault.
        LeavesAudit A fault (R.remaining reader.old) (W.contents writer.old) (W.contents writer.new)) }
{
    let Some(text) = read_all(alloc, reader)? else {
        return told(writer, &no_memory_line()).map_err(CliFault::Output);
    };
    put_audit(alloc, &text, writer).map_err(CliFault::Output)
}

// Audits an input, given whole, and writes the line.
fn put_audit<W: Write, A: Allocator + Copy>(alloc: A, text: &[u8], writer: &mut W) -> io::Result<u8>
    ensures text { IfOk result (λ status.
        Writes (λ out. IsAuditText A text.now out status) (W.contents writer.old) (W.contents writer.new)) }
    ensures begun { OnErr result (Writes (λ out. BeginsLine A text.now out) (W.contents writer.old)
        (W.contents writer.new)) }
    ensures retried { IfErr result IsFinal }
{
    let (line, status) = audited(alloc, text);
    put(writer, line.as_slice())?;
    Ok(status)
}

// The line for an input, and the exit status.
fn audited<A: Allocator + Copy>(alloc: A, text: &[u8]) -> (Line, u8)
    ensures { IsAuditText A text.now result.0 result.1 }
{
    match hex::decode(alloc, digits_in(text)) {
        Ok(bytes) => match journal_audit::audit(alloc, &bytes) {
            Ok(verdict) => (verdict_line(verdict), status_of(verdict)),
            Err(_) => (no_memory_line(), 1),
        },
        Err(FromHexError::OutOfMemory) => (no_memory_line(), 1),
        Err(_) => (bad_hex_line(), 1),
    }
}

// All bytes, but for one line feed at their end.
fn digits_in(text: &[u8]) -> &[u8]
    ensures { result.now ≡ strip_last 10 text.now }
{
    match text.split_last() {
        Some((b'\n', digits)) => digits,
        _ => text,
    }
}

fn status_of(verdict: Verdict) -> u8
    ensures { result ≡ status_of verdict }
{
    match verdict {
        Verdict::Run { .. } => 0,
        Verdict::NotRun { .. } => 2,
        Verdict::Torn { .. } => 1,
    }
}

fn verdict_line(verdict: Verdict) -> Line
    ensures { result ≡ line (verdict_text verdict) }
{
    let mut line = Line::new();
    match verdict {
        Verdict::Run { records } => line.tell_number(b"run ", records as u64),
        Verdict::NotRun { index } => line.tell_number(b"not a run: record ", index as u64),
        Verdict::Torn { offset } => line.tell_number(b"torn at ", offset as u64),
    }
    line
}
