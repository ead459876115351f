//! Pages of 4096 bytes.

ghost use Rattle.std.specs.Prelude.{◌≡◌, ◌||◌, ◌^◌, not, nat_le};
ghost use Rattle.iofd_words.specs.Pages.{crosses, is_above_sum, is_above_user, is_whole, page_of};

use iofd_words::{PAGE_SIZE, USER_END};

/// The page of an address.
pub fn page_of(address: u64) -> u64
    ensures { result ≡ page_of address }
{
    address / PAGE_SIZE
}

/// Whether it is a multiple of a page.
pub fn is_whole(number: u64) -> bool
    ensures { result ≡ is_whole number }
{
    number % PAGE_SIZE == 0
}

/// Whether no user's page begins there.
pub fn is_no_page(va: u64) -> bool
    ensures { result ≡ (not (is_whole va) || nat_le (2 ^ 48) va) }
{
    !is_whole(va) || va >= USER_END
}

/// Whether so many bytes from the start on end above 2^64.
pub fn is_above_sum(start: u64, length: u64) -> bool
    ensures { result ≡ is_above_sum start length }
{
    u128::from(start) + u128::from(length) > 1 << 64
}

/// Whether so many bytes from the start on end above the users' addresses.
pub fn is_above_user(start: u64, length: u64) -> bool
    ensures { result ≡ is_above_user start length }
{
    u128::from(start) + u128::from(length) > u128::from(USER_END)
}

/// Whether an access to so many bytes is to none, to more than 64, or leaves its page.
pub fn crosses(address: u64, count: usize) -> bool
    ensures { result ≡ crosses address count }
{
    count == 0 || count > 64 || address % PAGE_SIZE + count as u64 > PAGE_SIZE
}
