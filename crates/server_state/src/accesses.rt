//! The bytes of an access.

ghost use Rattle.std.specs.Prelude.{◌≡◌};
ghost use Rattle.iofd_words.specs.Pages.{crosses};

use iofd_words::PAGE_SIZE;

/// Whether so many bytes from the address on are none or more than 64, or leave the page.
pub fn crosses(address: u64, len: usize) -> bool
    ensures { result ≡ crosses address len }
{
    len == 0 || len > 64 || address % PAGE_SIZE + len as u64 > PAGE_SIZE
}
