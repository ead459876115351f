//! How many rows there are, and within which numbers they lie, each the contract of a function that does nothing.

ghost use Rattle.std.specs.Prelude.{◌≤◌, ◌<◌, ◌^◌, ◌-◌, ◌==◌, ◌&&◌};
ghost use Rattle.std.specs.Prelude.{ℕ, List, Contains};
ghost use Rattle.iofd_promises.specs.Bounded.{LiesWell, how_many};
ghost use Rattle.iofd_steps.specs.Run.{IsRun, world_of};
ghost use Rattle.iofd_words.specs.Record.{Record};
ghost use Rattle.iofd_words.specs.Settings.{Settings};
ghost use Rattle.iofd_words.specs.declared.rows.Area.{Area};
ghost use Rattle.iofd_words.specs.declared.rows.Object.{Object};
ghost use Rattle.iofd_words.specs.declared.rows.UserPage.{UserPage};

use std::alloc::Allocator;

/// In every run, each area begins at a page, has whole pages, at least one, and ends below 2^64.
pub fn areas_lie_below_2_to_the_64<A: Allocator>()
    ensures { (settings : Settings) (records : List (Record A)) (area : Area) → IsRun settings records →
        Contains (world_of settings records).areas area → LiesWell area }
{}

/// In every run, each user's page is one of those below 2^48 bytes, and so its number is below 2^36.
pub fn user_pages_lie_below_2_to_the_36<A: Allocator>()
    ensures { (settings : Settings) (records : List (Record A)) (page : UserPage) → IsRun settings records →
        Contains (world_of settings records).user_pages page → page.page < 2 ^ 36 }
{}

/// In every run, each object's id is one from 1 to 2^31 - 1.
pub fn ids_are_from_1_to_2_to_the_31<A: Allocator>()
    ensures { (settings : Settings) (records : List (Record A)) (object : Object) → IsRun settings records →
        Contains (world_of settings records).objects object → (1 ≤ object.id.0) × (object.id.0 ≤ 2 ^ 31 - 1) }
{}

/// In every run, a file has at most 65,535 objects, and an address space at most 65,535 areas.
pub fn rows_are_few<A: Allocator>()
    ensures objects { (settings : Settings) (records : List (Record A)) (file : ℕ) → IsRun settings records →
        how_many (λ (object : Object). object.file.0 == file) (world_of settings records).objects ≤ 65535 }
    ensures areas { (settings : Settings) (records : List (Record A)) (file ioas : ℕ) → IsRun settings records →
        how_many (λ (area : Area). area.file.0 == file && area.ioas.0 == ioas)
        (world_of settings records).areas ≤ 65535 }
{}
