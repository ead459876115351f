//! Lines handed to a writer, so that it is known what a failure leaves.

ghost use Rattle.std.specs.Prelude.{◌≤◌, ◌<◌, IfOk, IfErr, OnOk, OnErr, length, take};
ghost use Rattle.std.specs.Io.KnownBytes.{Appends, Keeps};
ghost use Rattle.iommufd_cli.specs.Output.{IsFinal, IsFront, Writes};

use std::io::{self, ErrorKind, Write};

/// Writes all of the bytes. Where a write fails, takes no byte, or was interrupted 2^64 times, it is an error, and a
/// front of the bytes was written.
pub(crate) fn put<W: Write>(writer: &mut W, bytes: &[u8]) -> io::Result<()>
    ensures ok { OnOk result (Appends (W.contents writer.old) (W.contents writer.new) bytes.now) }
    ensures err { OnErr result (Writes (λ front. IsFront front bytes.now) (W.contents writer.old)
        (W.contents writer.new)) }
    ensures retried { IfErr result IsFinal }
{
    let mut rest = bytes;
    while !rest.is_empty() {
        let count = put_some(writer, rest)?;
        rest = &rest[count..];
    }
    Ok(())
}

// One write of at least one byte; one that a signal interrupts is tried again.
fn put_some<W: Write>(writer: &mut W, bytes: &[u8]) -> io::Result<usize>
    ensures some { IfOk result (λ count. (0 < count) × (count ≤ length bytes.now)) }
    ensures ok { IfOk result (λ count.
        Appends (W.contents writer.old) (W.contents writer.new) (take count bytes.now)) }
    ensures err { OnErr result (Keeps (W.contents writer.old) (W.contents writer.new)) }
    ensures retried { IfErr result IsFinal }
{
    for _ in 0..u64::MAX {
        match writer.write(bytes) {
            Ok(0) => return Err(ErrorKind::WriteZero.into()),
            Ok(count) => return Ok(count),
            Err(error) if error.kind() == ErrorKind::Interrupted => {}
            Err(error) => return Err(error),
        }
    }
    Err(ErrorKind::TimedOut.into())
}
