//! Laws of the definitions, each the contract of a function that does nothing.

ghost use Rattle.std.specs.Prelude.{◌≡◌, ◌↔◌, ℕ, ◌&&◌, true, false, not, nat_le, IsTrue};
ghost use Rattle.std.specs.Prelude.{List, [], ◌∷◌};
ghost use Rattle.std.specs.List.{list_any};
ghost use Rattle.iofd_words.specs.Bounds.{Bounds};
ghost use Rattle.iofd_words.specs.Fits.{IsFit};
ghost use Rattle.iofd_words.specs.Ranges.{AreMerged, in_spans};
ghost use Rattle.iofd_words.specs.Room.{AreOrdered, fits, has_fit, starts_to_try};

/// Sets of the same numbers are made up of the same spans.
pub fn equal_sets_have_equal_spans()
    ensures { (xs ys : List Bounds) → AreMerged xs → AreMerged ys
        → ((n : ℕ) → in_spans xs n ≡ in_spans ys n) → xs ≡ ys }
{}

/// The test of a start is true exactly where so many addresses fit from it on. The spans and areas may stand in any
/// order and overlap.
pub fn fits_are_tested()
    ensures { (count start : ℕ) (spans areas : List Bounds) → AreOrdered areas
        → IsTrue (fits count spans areas start) ↔ IsFit count spans areas start }
{}

/// The test for room is true exactly where so many addresses fit from some start on, though it tries only few starts.
pub fn room_is_found()
    ensures { (count : ℕ) (spans areas : List Bounds) → AreOrdered areas
        → IsTrue (has_fit count spans areas) ↔ ((start : ℕ) × IsFit count spans areas start) }
{}

/// Where so many addresses fit from a start on, they fit from one of the starts that are tried, at or below it. So the
/// test of these few tells whether any start fits, and the least of them that fits is the least of all. The spans and
/// areas may stand in any order and overlap.
pub fn few_starts_suffice()
    ensures { (count start : ℕ) (spans areas : List Bounds) → fits count spans areas start ≡ true
        → list_any (λ tried.
        nat_le tried start && fits count spans areas tried) (starts_to_try spans areas) ≡ true }
{}

/// What fits hangs on the numbers that are in the set and in no area, and not on how they are told.
pub fn fits_depend_on_free_numbers()
    ensures { (count : ℕ) (spans areas other_spans other_areas : List Bounds)
        → ((n : ℕ) → (in_spans spans n && not (in_spans areas n))
        ≡ (in_spans other_spans n && not (in_spans other_areas n)))
        → (start : ℕ) → IsFit count spans areas start → IsFit count other_spans other_areas start }
{}

/// The test for room, at numbers worked out by hand: two pages for two areas leave none; a reserved page leaves room
/// behind it; and a page is left at the very top.
pub fn worked_rooms()
    ensures none_left { has_fit 0x1000 (record { first = 0x2000; last = 0x3fff } ∷ [])
        (record { first = 0x3000; last = 0x3fff } ∷ record { first = 0x2000; last = 0x2fff } ∷ []) ≡ false }
    ensures behind { fits 0x5000 (record { first = 0; last = 0x7fffffffff } ∷ [])
        (record { first = 0x4000; last = 0x4fff } ∷ []) 0x5000 ≡ true }
    ensures before { fits 0x5000 (record { first = 0; last = 0x7fffffffff } ∷ [])
        (record { first = 0x4000; last = 0x4fff } ∷ []) 0 ≡ false }
    ensures top { has_fit 0x1000 (record { first = 0; last = 0xffffffffffffffff } ∷ [])
        (record { first = 0; last = 0xffffffffffffefff } ∷ []) ≡ true }
    ensures over_the_top { has_fit 0x1001 (record { first = 0; last = 0xffffffffffffffff } ∷ [])
        (record { first = 0; last = 0xffffffffffffefff } ∷ []) ≡ false }
{}
