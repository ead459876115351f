//! What MAP and COPY are refused for by the words of a request alone, by the same rules. What is mapped begins at a
//! user's address, or at one of the source.

ghost use Rattle.std.specs.Prelude.{◌≡◌, ◌==◌, ◌&&◌, ◌||◌, not};
ghost use Rattle.iofd_words.specs.Pages.{is_above_sum, is_whole};
ghost use Rattle.iofd_words.specs.Rights.{is_fixed, is_readable, is_writeable};

use iofd_words::{Iova, MapFlags};
use journal_audit_world::pages;

/// Whether no right is asked for.
pub fn gives_no_right(flags: MapFlags) -> bool
    ensures { result ≡ not (is_readable flags || is_writeable flags) }
{
    !(flags.is_readable() || flags.is_writeable())
}

/// Whether what is mapped, or a fixed address, ends above 2^64.
pub fn is_above(flags: MapFlags, from: u64, iova: Iova, bytes: u64) -> bool
    ensures { result ≡ (is_above_sum from bytes || (is_fixed flags && is_above_sum iova.0 bytes)) }
{
    pages::is_above_sum(from, bytes) || (flags.is_fixed() && pages::is_above_sum(iova.0, bytes))
}

/// Whether nothing is mapped, or what is doesn't begin and end at a page's border.
pub fn is_in_page(from: u64, bytes: u64) -> bool
    ensures { result ≡ (bytes == 0 || not (is_whole bytes && is_whole from)) }
{
    bytes == 0 || !(pages::is_whole(bytes) && pages::is_whole(from))
}

/// Whether a fixed address isn't at a page's border.
pub fn is_fixed_in_page(flags: MapFlags, iova: Iova) -> bool
    ensures { result ≡ (is_fixed flags && not (is_whole iova.0)) }
{
    flags.is_fixed() && !pages::is_whole(iova.0)
}
