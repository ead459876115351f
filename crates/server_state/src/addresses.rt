//! Sums of addresses.

ghost use Rattle.std.specs.Prelude.{◌≡◌};
ghost use Rattle.iofd_words.specs.Pages.{is_above_sum};

/// Whether start plus length is above 2^64.
pub fn is_above_sum(start: u64, length: u64) -> bool
    ensures { result ≡ is_above_sum start length }
{
    u128::from(start) + u128::from(length) > 1 << 64
}
