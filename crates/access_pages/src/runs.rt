//! Pins by accesses are put on the pages of areas that lie in a span, or taken off.

ghost use Rattle.std.specs.Prelude.{◌≡◌, ◌<◌, ◌^◌, true, [], length, take, OnErr, OnOk};
ghost use Rattle.std.specs.List.{list_all};
ghost use Rattle.iofd_words.specs.Pins.{ObjectPage};
ghost use Rattle.iofd_words.specs.Span.{meets};
ghost use Rattle.user_memory.specs.Memory.{access_pins, is_in_runs};
ghost use Rattle.access_pages.specs.Runs.{ArePinned, AreReleased, MayPin, MayRelease, runs_in};

use crate::spans::run_in;
use area_map::Iter;
use frame_memory::Pool;
use iofd_words::{NoMemory, Span};
use std::alloc::Allocator;
use user_memory::UserMemory;

/// Puts one pin by an access on each page that the areas, which meet the span, have in it, or on none: the only error
/// is want of memory, and leaves the pins, the frames and the account as they were. It comes only where no access pins
/// some of these pages yet.
pub fn pin_all<A: Allocator + Copy>(
    areas: Iter<'_, A>,
    span: Span,
    memory: &mut UserMemory<A>,
    pool: &mut Pool<A>,
) -> Result<(), NoMemory>
    requires met { list_all (λ area. meets area.span span) areas ≡ true }
    requires may { MayPin (runs_in span areas) memory.old pool.old.holds }
    requires few { length areas < 2 ^ 64 }
    ensures ok { OnOk result (ArePinned (runs_in span areas.entry) memory.old memory.new pool.old pool.new) }
    ensures err { OnErr result (ArePinned [] memory.old memory.new pool.old pool.new) }
    ensures memory { OnErr result ((page : ObjectPage) × (is_in_runs (runs_in span areas.entry) page ≡ true)
        × (access_pins memory.old page ≡ 0)) }
{
    let all = areas.again();
    let mut count = 0;
    for area in areas {
        if memory.pin_by_access(pool, run_in(area, span)).is_err() {
            unpin_first(all, count, span, memory, pool);
            return Err(NoMemory);
        }
        count += 1;
    }
    Ok(())
}

/// Takes one pin by an access off each page that the first so many of the areas have in the span.
fn unpin_first<A: Allocator + Copy>(
    areas: Iter<'_, A>,
    count: usize,
    span: Span,
    memory: &mut UserMemory<A>,
    pool: &mut Pool<A>,
)
    requires met { list_all (λ area. meets area.span span) areas ≡ true }
    requires may { MayRelease (runs_in span (take count areas)) memory.old pool.old.holds }
    ensures { AreReleased (runs_in span (take count areas.entry)) memory.old memory.new pool.old pool.new }
{
    let mut left = count;
    for area in areas {
        if left == 0 {
            return;
        }
        memory.unpin_by_access(pool, run_in(area, span));
        left -= 1;
    }
}

/// Takes one pin by an access off each page that the areas, which meet the span, have in it. It takes no memory.
pub fn unpin_all<A: Allocator + Copy>(
    areas: Iter<'_, A>,
    span: Span,
    memory: &mut UserMemory<A>,
    pool: &mut Pool<A>,
)
    requires met { list_all (λ area. meets area.span span) areas ≡ true }
    requires may { MayRelease (runs_in span areas) memory.old pool.old.holds }
    ensures { AreReleased (runs_in span areas.entry) memory.old memory.new pool.old pool.new }
{
    for area in areas {
        memory.unpin_by_access(pool, run_in(area, span));
    }
}
