//! The input of a program, read whole.

ghost use Rattle.std.specs.Prelude.{◌≡◌, ◌≤◌, ◌^◌, IfErr, IfOk, IfSome, length};
ghost use Rattle.iommufd_cli.specs.Failures.{IsReadFault};

use crate::fault::{CliFault, InputFault};
use std::alloc::Allocator;
use std::io::{ErrorKind, Read};

/// The most bytes that an input has, 2^24.
const MOST_BYTES: u64 = 1 << 24;

/// All bytes of the reader; None where there is no memory for them.
pub(crate) fn read_all<R: Read, A: Allocator>(
    alloc: A,
    reader: &mut R,
) -> Result<Option<Vec<u8, A>>, CliFault>
    ensures bytes { IfOk result (λ read. IfSome read
        (λ bytes. IfSome (R.remaining reader.old) (λ input. bytes.items ≡ input))) }
    ensures most { IfOk result (λ read. IfSome read (λ bytes. length bytes.items ≤ 2 ^ 24)) }
    ensures fault { IfErr result (λ fault. IsReadFault fault (R.remaining reader.old)) }
{
    let mut bytes = Vec::new(alloc);
    match reader.take(MOST_BYTES + 1).read_to_end(&mut bytes) {
        Ok(_) if bytes.len() as u64 <= MOST_BYTES => Ok(Some(bytes)),
        Ok(_) => Err(CliFault::Input(InputFault::TooLong)),
        Err(error) if error.kind() == ErrorKind::OutOfMemory => Ok(None),
        Err(error) => Err(CliFault::Input(InputFault::Read(error))),
    }
}
