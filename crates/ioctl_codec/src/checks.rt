//! The checks that every structure has in common.

ghost use Rattle.std.specs.Prelude.{◌≡◌, ◌+◌, ◌*◌, ◌≤◌, length, drop, IfOk, IsTrue};
ghost use Rattle.iofd_words.specs.FirstTrue.{first_true};
ghost use Rattle.ioctl_codec.specs.Refusals.{size_at, size_checks, field_checks, cause_of};

use crate::number::{are_zeros, u32_at};
use iofd_words::{Cause, Refusal};

// The greatest size of a structure.
const SIZE_LIMIT: u32 = 4096;

// The fields behind the size, and the bytes after the size's end, if the sizes are good for a
// structure of this length and nothing stands in its tail.
#[tactic(auto, unfolding(crate::specs::Refusals::size_checks))]
pub fn split_structure(bytes: &[u8], known: u32) -> Result<(&[u8], &[u8]), Refusal>
    requires { 4 ≤ known }
    ensures refused { cause_of result ≡ first_true (size_checks known bytes.now) }
    ensures fields { IfOk result (λ parts. parts.0.now ≡ drop 4 bytes.now) }
    ensures after { IfOk result (λ parts. parts.1.now ≡ drop (size_at bytes.now) bytes.now) }
    ensures enough { IfOk result (λ parts. known ≤ length parts.0.now + 4) }
{
    if bytes.len() < 4 {
        return Err(Refusal {
            cause: Cause::Short,
        });
    }
    let (size, fields) = u32_at(bytes);
    if size < known {
        return Err(Refusal {
            cause: Cause::Short,
        });
    }
    if size > SIZE_LIMIT {
        return Err(Refusal { cause: Cause::Tail });
    }
    let size = size as usize;
    if bytes.len() < size {
        return Err(Refusal {
            cause: Cause::Short,
        });
    }
    let (structure, after) = bytes.split_at(size);
    if !are_zeros(&structure[known as usize..]) {
        return Err(Refusal { cause: Cause::Tail });
    }
    Ok((fields, after))
}

// The last checks: the flags and reserved fields are supported, and behind the size's end are the bytes of so many
// entries.
#[tactic(auto, unfolding(crate::specs::Refusals::field_checks))]
pub fn check_fields(supported: bool, count: u32, after: &[u8]) -> Result<(), Refusal>
    ensures refused { cause_of result ≡ first_true (field_checks supported count after.now) }
    ensures supported { IfOk result (λ _. IsTrue supported) }
    ensures whole { IfOk result (λ _. length after.now ≡ 16 * count) }
{
    if !supported {
        return Err(Refusal {
            cause: Cause::Unsupported,
        });
    }
    if after.len() as u64 != 16 * u64::from(count) {
        return Err(Refusal {
            cause: Cause::Array,
        });
    }
    Ok(())
}
