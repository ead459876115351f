//! The levels of tables, and which entry of each a page goes through.

ghost use Rattle.std.specs.Prelude.{◌≡◌, ◌≤◌, ◌<◌, ◌^◌};
ghost use Rattle.iofd_words.specs.Levels.{index_at, levels_of, number_at};
ghost use Rattle.page_table_words.specs.Needed.{first_page};

use iofd_words::Width;

/// How many levels the tables of a width have: each takes 9 bits of an address, above the 12 of a page's offset.
pub fn levels(width: Width) -> u8
    ensures value { result ≡ levels_of width }
    ensures some { 0 < result }
    ensures few { result ≤ 5 }
{
    (width.bits() - 12) / 9
}

/// Which of a level's tables the page goes through, counted from 0 by rising address.
pub fn number(level: u8, page: u64) -> u64
    requires { level ≤ 5 }
    ensures { result ≡ number_at level page }
{
    page >> (9 * level)
}

/// The first page that goes through the level's table of this number.
pub fn first_page(level: u8, number: u64) -> u64
    requires few { level ≤ 5 }
    requires fits { first_page level number < 2 ^ 64 }
    ensures { result ≡ first_page level number }
{
    number << (9 * level)
}

/// The entry, in the table of this level through which the page goes, that leads on.
pub(crate) fn index(level: u8, page: u64) -> usize
    requires some { 0 < level }
    requires few { level ≤ 5 }
    ensures value { result ≡ index_at level page }
    ensures within { result < 512 }
{
    (number(level - 1, page) & 511) as usize
}
