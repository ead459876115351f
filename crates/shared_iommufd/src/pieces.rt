//! How a port's read or write of many bytes is split.

ghost use Rattle.std.specs.Prelude.{◌≡◌, ◌≤◌, ◌<◌, false};
ghost use Rattle.iofd_words.specs.Pages.{crosses};
ghost use Rattle.shared_iommufd.specs.Pieces.{piece_len};

use iofd_words::{Burst, PAGE_SIZE};

// How many bytes the next piece has, where so many are left from the address on.
pub(crate) fn piece_len(address: u64, left: usize) -> usize
    ensures value { result ≡ piece_len address left }
    ensures some { 0 < left → 0 < result }
    ensures most { result ≤ 64 }
    ensures within { result ≤ left }
    ensures inside { 0 < left → crosses address result ≡ false }
{
    let in_page = (PAGE_SIZE - address % PAGE_SIZE) as usize;
    left.min(in_page.min(Burst::MAX))
}
