//! What pinning the pages of areas asks.

ghost use Rattle.std.specs.Prelude.{◌≡◌, ◌≤◌, ◌==◌, ◌&&◌, IfOk, map, nat_lt, sum_by};
ghost use Rattle.std.specs.List.{list_any};
ghost use Rattle.user_memory.specs.Memory.{lacks_page, new_pages, newly_pinned};

use area_map::Areas;
use iofd_words::{Area, NoMemory};
use std::alloc::Allocator;
use user_memory::UserMemory;

/// Whether a page of one of the areas' memory objects isn't pinned, and isn't in its user's memory.
pub(crate) fn lack_page<A: Allocator>(areas: &Areas<A>, memory: &UserMemory<A>) -> bool
    ensures { result ≡ list_any (λ area. lacks_page memory.now area.memory) areas.now.areas }
{
    areas.iter().any(|area| memory.lacks_page(area.memory))
}

/// How many pages the areas' memory objects have that aren't pinned, where one that several areas share counts for
/// each: pinning them pins no more than that. It takes no memory.
pub(crate) fn most_new_pages<A: Allocator>(areas: &Areas<A>, memory: &UserMemory<A>) -> u128
    ensures value { result ≡ sum_by (λ area. new_pages memory.now area.memory) areas.now.areas }
    ensures most { newly_pinned memory.now (map (λ area. area.memory) areas.now.areas) ≤ result }
{
    memory.objects_told();
    let mut count = 0;
    for area in areas.iter() {
        count += u128::from(memory.new_pages(area.memory));
    }
    count
}

/// How many pages pinning the areas' memory objects pins anew, each once. It takes memory for their numbers, and where
/// there is none it compares the areas with each other.
pub(crate) fn new_pages<A: Allocator, B: Allocator>(
    alloc: B,
    areas: &Areas<A>,
    memory: &UserMemory<A>,
) -> u128
    ensures { result ≡ newly_pinned memory.now (map (λ area. area.memory) areas.now.areas) }
{
    match numbers_of(alloc, areas) {
        Ok(mut numbers) => {
            numbers.sort_unstable();
            memory.newly_pinned(&numbers)
        }
        Err(_) => new_pages_in_turn(areas, memory),
    }
}

/// The same without memory: each area's object counts unless an area before it lies over it too.
fn new_pages_in_turn<A: Allocator>(areas: &Areas<A>, memory: &UserMemory<A>) -> u128
    ensures { result ≡ newly_pinned memory.now (map (λ area. area.memory) areas.now.areas) }
{
    memory.objects_told();
    let mut count = 0;
    for area in areas.iter() {
        if !is_shared_before(areas, area) {
            count += u128::from(memory.new_pages(area.memory));
        }
    }
    count
}

/// Whether an area that begins before this one lies over its memory object too.
fn is_shared_before<A: Allocator>(areas: &Areas<A>, area: &Area) -> bool
    ensures { result ≡ list_any (λ other. nat_lt other.span.first area.now.span.first
        && other.memory == area.now.memory) areas.now.areas }
{
    let first = area.span.first();
    areas.iter().any(|other| other.span.first() < first && other.memory == area.memory)
}

/// The numbers of the areas' memory objects, by rising start. Its only error is want of memory.
pub(crate) fn numbers_of<A: Allocator, B: Allocator>(
    alloc: B,
    areas: &Areas<A>,
) -> Result<Vec<u64, B>, NoMemory>
    ensures { IfOk result (λ numbers. numbers.items ≡ map (λ area. area.memory) areas.now.areas) }
{
    let mut numbers = Vec::with_capacity(alloc, areas.len())?;
    for area in areas.iter() {
        numbers.push_reserved(area.memory);
    }
    Ok(numbers)
}
