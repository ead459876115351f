//! Tables of a page table, by where they stand in it.

ghost use Rattle.std.specs.Prelude.{◌≡◌, ◌≤◌, ◌<◌, ◌+◌, ◌^◌};
ghost use Rattle.std.specs.List.{range_with_len};
ghost use Rattle.iofd_words.specs.Levels.{first_address, levels_of};
ghost use Rattle.iofd_words.specs.TablePlaces.{pages_in};

use iofd_words::{FileNo, ObjId, PAGE_SIZE, Span, Width};
use std::marker::Model;

/// A table that a page table needs and hasn't: its level, and the first address that goes through it.
#[derive(Clone, Copy)]
pub struct Missing {
    pub file: FileNo,
    pub hwpt: ObjId,
    pub level: u8,
    pub first: u64,
}

impl Model for Missing {
    ghost use Rattle.iofd_words.specs.Tables.{MissingTable};

    ghost Value = { MissingTable };

    ghost view = { λ missing. record {
      file = missing.file;
      hwpt = missing.hwpt;
      place = record { level = missing.level; first = missing.first };
    } };

    ghost inverse = { λ missing. record {
      file = missing.file;
      hwpt = missing.hwpt;
      level = missing.place.level;
      first = missing.place.first;
    } };
}

/// How many levels of tables a width has.
pub fn levels_of(width: Width) -> u8
    ensures value { result ≡ levels_of width }
    ensures some { 1 ≤ result }
    ensures few { result ≤ 5 }
{
    match width {
        Width::Bits39 => 3,
        Width::Bits48 => 4,
        Width::Bits57 => 5,
    }
}

/// The first address that goes through the table of this level through which the page goes.
#[tactic(auto, unfolding(iofd_words::specs::Levels::number_at))]
pub fn first_address(level: u8, page: u64) -> u64
    requires some { 1 ≤ level }
    requires most { level ≤ 5 }
    requires page { page < 2 ^ 52 }
    ensures { result ≡ first_address level page }
{
    match level {
        1 => page / 512 * (512 * 4096),
        2 => page / 262_144 * (262_144 * 4096),
        3 => page / 134_217_728 * (134_217_728 * 4096),
        4 => page / 68_719_476_736 * (68_719_476_736 * 4096),
        _ => page / 35_184_372_088_832 * (35_184_372_088_832 * 4096),
    }
}

/// Pages that follow each other: the first, and how many there are.
#[derive(Clone, Copy)]
pub struct Pages {
    pub first: u64,
    pub count: u64,
}

impl Pages {
    /// The pages of a span that begins and ends at a page's border.
    pub fn of_span(span: Span) -> Pages
        ensures pages { range_with_len result.first result.count ≡ pages_in span }
        ensures few { result.first + result.count ≤ 2 ^ 52 }
    {
        Pages {
            first: span.first() / PAGE_SIZE,
            count: ((u128::from(span.last()) + 1 - u128::from(span.first()))
                / u128::from(PAGE_SIZE)) as u64,
        }
    }
}
