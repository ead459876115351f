//! The least place where a length of addresses fits.

ghost use Rattle.std.specs.Prelude.{◌≡◌, ◌↔◌, ℕ, ◌+◌, ◌≤◌, ◌^◌, drop, length, IsTrue};
ghost use Rattle.std.specs.Prelude.{IfSome, IfNone};
ghost use Rattle.iofd_words.specs.Fits.{StartsRise, IsFit, whole_from};
ghost use Rattle.iofd_words.specs.Ranges.{AreMerged};
ghost use Rattle.iova_ranges.specs.Search.{first_below, room_in};

use iofd_words::{PAGE_SIZE, Span};

/// The least multiple of a page from which so many addresses lie in the spans and in none of the areas. One pass over
/// both lists.
pub fn first_fit(spans: &[Span], count: u64, areas: &[Span]) -> Option<u64>
    requires merged { AreMerged spans.now }
    requires rise { StartsRise areas.now }
    ensures fit { IfSome result (λ start. IsFit count spans.now areas.now start) }
    ensures least { IfSome result (λ start. (other : ℕ) → IsFit count spans.now areas.now other →
        start ≤ other) }
    ensures none { IfNone result ((start : ℕ) → ¬ IsFit count spans.now areas.now start) }
{
    if count == 0 {
        return None;
    }
    let mut from = 0;
    let mut passed = 0;
    let mut beside = 0;
    while passed < spans.len() {
        match room_in(spans[passed], from, count) {
            None => passed += 1,
            Some(start) => match next_below(areas, beside, start + u128::from(count)) {
                None => return Some(start as u64),
                Some(area) => {
                    from = start.max(u128::from(area.last()) + 1);
                    beside += 1;
                }
            },
        }
    }
    None
}

// Where in the span so many addresses fit first, from an address on.
fn room_in(span: Span, from: u128, count: u64) -> Option<u128>
    requires { from ≤ 2 ^ 64 }
    ensures value { result ≡ room_in span from count }
    ensures bound { IfSome result (λ start. start + count ≤ 2 ^ 64) }
{
    let start = whole_from(from.max(u128::from(span.first())));
    if start + u128::from(count) <= u128::from(span.last()) + 1 {
        Some(start)
    } else {
        None
    }
}

// The least multiple of a page at the number or above it.
fn whole_from(number: u128) -> u128
    requires { number ≤ 2 ^ 64 }
    ensures value { result ≡ whole_from number }
    ensures bound { result ≤ 2 ^ 64 + 4095 }
{
    let page = u128::from(PAGE_SIZE);
    (number + page - 1) / page * page
}

// The area at the place, if there is one and it begins below the number.
fn next_below(areas: &[Span], place: usize, number: u128) -> Option<Span>
    ensures { result ≡ first_below number (drop place areas.now) }
{
    let area = areas.get(place)?;
    if u128::from(area.first()) < number {
        Some(*area)
    } else {
        None
    }
}

/// Whether each of the spans begins no lower than the one before it, as `RangeSet::first_fit` asks of areas.
pub fn starts_rise(spans: &[Span]) -> bool
    ensures { IsTrue result ↔ StartsRise spans.now }
{
    let mut low = 0;
    for span in spans {
        if span.first() < low {
            return false;
        }
        low = span.first();
    }
    true
}
