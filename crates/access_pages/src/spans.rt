//! The areas that a span meets, and the pages of their memory objects that lie in it.

ghost use Rattle.std.specs.Prelude.{◌≡◌, true};
ghost use Rattle.iofd_words.specs.Span.{meets};
ghost use Rattle.access_pages.specs.Runs.{run_in};
ghost use Rattle.access_pages.specs.Runs as runs;

use area_map::{Areas, Iter};
use iofd_words::{Area, PAGE_SIZE, Span};
use std::alloc::Allocator;
use user_memory::PageRun;

/// The areas that meet the span, of any phase, by rising start. It takes no memory.
pub fn meeting<A: Allocator>(areas: &Areas<A>, span: Span) -> Iter<'_, A>
    ensures { result ≡ runs.meeting span areas.now.areas }
{
    areas.meeting(span)
}

/// The pages of the area's memory object that lie in the span, which meets the area.
pub fn run_in(area: &Area, span: Span) -> PageRun
    requires { meets area.now.span span ≡ true }
    ensures { result ≡ run_in span area.now }
{
    let start = area.span.first();
    let first = (start.max(span.first()) - start) / PAGE_SIZE;
    let last = (area.span.last().min(span.last()) - start) / PAGE_SIZE;
    PageRun {
        number: area.memory,
        first,
        count: last + 1 - first,
    }
}
