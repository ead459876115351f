//! Whether the file's user may have pinned what a pin of an access object would pin anew.

ghost use Rattle.std.specs.Prelude.{◌≡◌, ◌≤◌, ◌∷◌, [], length, not, true};
ghost use Rattle.std.specs.List.{count_by, list_all};
ghost use Rattle.access_pages.specs.Runs as runs;
ghost use Rattle.iofd_words.specs.Areas.{most_areas};
ghost use Rattle.iofd_refusals.specs.Checks.{passes_limit};
ghost use Rattle.iofd_words.specs.Files.{user_of};
ghost use Rattle.iofd_words.specs.Span.{meets};
ghost use Rattle.memory_objects.specs.Runs.{covers};
ghost use Rattle.server_state.specs.Seen.{seen};
ghost use Rattle.server_state.specs.Step.{IsKnown};
ghost use Rattle.user_memory.specs.Memory.{is_in_runs, new_in_runs, run_lies};

use access_pages::run_in;
use area_map::Iter;
use iofd_words::{FileNo, Span};
use server_state::{State, accounts};
use std::alloc::Allocator;
use user_memory::{PageRun, UserMemory};

/// Whether with the pages that these areas, which meet the span, have in it and that aren't pinned yet the file's user
/// would have more pinned pages than the limit allows. It takes no memory.
pub(crate) fn passes_limit<A: Allocator>(
    state: &State<A>,
    file: FileNo,
    areas: Iter<'_, A>,
    span: Span,
) -> bool
    requires known { IsKnown state.now }
    requires met { list_all (λ area. meets area.span span) areas ≡ true }
    requires lies { list_all (run_lies state.now.memory) (runs.runs_in span areas) ≡ true }
    requires few { length areas ≤ most_areas }
    ensures { result ≡ passes_limit (seen state.now) (user_of state.now.config file)
        (length (new_in_runs state.now.memory (runs.runs_in span areas.entry))) }
{
    // Where the user may have them all, it doesn't matter which are pinned already.
    let all = all_pages(areas.again(), span, &state.memory);
    if !accounts::passes_limit(state, file, all) {
        return false;
    }
    let most = most_new_pages(areas.again(), span, &state.memory);
    if !accounts::passes_limit(state, file, most) {
        return false;
    }
    // Only here does it matter what areas share.
    let count = new_pages(areas, span, &state.memory);
    accounts::passes_limit(state, file, count)
}

/// How many pages these areas, which meet the span, have in it, pinned or not: a pin of the span pins no more than
/// that. It looks at no page.
fn all_pages<A: Allocator>(areas: Iter<'_, A>, span: Span, memory: &UserMemory<A>) -> u128
    requires met { list_all (λ area. meets area.span span) areas ≡ true }
    requires lies { list_all (run_lies memory.now) (runs.runs_in span areas) ≡ true }
    requires few { length areas ≤ most_areas }
    ensures { length (new_in_runs memory.now (runs.runs_in span areas.entry)) ≤ result }
{
    // Of an object no page counts twice.
    memory.objects_told();
    let mut count = 0;
    for area in areas {
        count += u128::from(run_in(area, span).count);
    }
    count
}

/// How many pages these areas, which meet the span, have in it that aren't pinned, where one that several areas share
/// counts for each: a pin of the span pins no more than that.
fn most_new_pages<A: Allocator>(areas: Iter<'_, A>, span: Span, memory: &UserMemory<A>) -> u128
    requires met { list_all (λ area. meets area.span span) areas ≡ true }
    requires lies { list_all (run_lies memory.now) (runs.runs_in span areas) ≡ true }
    requires few { length areas ≤ most_areas }
    ensures { length (new_in_runs memory.now (runs.runs_in span areas.entry)) ≤ result }
{
    let mut count = 0;
    for area in areas {
        count += u128::from(memory.new_pages_in(run_in(area, span)));
    }
    count
}

/// How many pages these areas, which meet the span, have in it that aren't pinned, where one that several areas share
/// counts once: for the last area that has it. It goes over the pages, and for each that isn't pinned over the areas
/// behind.
fn new_pages<A: Allocator>(areas: Iter<'_, A>, span: Span, memory: &UserMemory<A>) -> u128
    requires met { list_all (λ area. meets area.span span) areas ≡ true }
    requires lies { list_all (run_lies memory.now) (runs.runs_in span areas) ≡ true }
    requires few { length areas ≤ most_areas }
    ensures { result ≡ length (new_in_runs memory.now (runs.runs_in span areas.entry)) }
{
    let mut left = areas;
    let mut count = 0;
    while let Some(area) = left.next() {
        count += u128::from(new_pages_of(run_in(area, span), left.again(), span, memory));
    }
    count
}

/// How many pages of the run aren't pinned, and are in none of the runs that these areas, which meet the span, have in
/// it.
fn new_pages_of<A: Allocator>(
    run: PageRun,
    others: Iter<'_, A>,
    span: Span,
    memory: &UserMemory<A>,
) -> u64
    requires lies { run_lies memory.now run ≡ true }
    requires met { list_all (λ area. meets area.span span) others ≡ true }
    ensures { result ≡ count_by (λ page. not (is_in_runs (runs.runs_in span others.entry) page))
        (new_in_runs memory.now (run ∷ [])) }
{
    // An object has few pages.
    memory.objects_told();
    if memory.new_pages_in(run) == 0 {
        return 0;
    }
    let mut count = 0;
    for index in run.first..run.first + run.count {
        let page = PageRun {
            number: run.number,
            first: index,
            count: 1,
        };
        count += new_page(page, others.again(), span, memory);
    }
    count
}

/// 1 where the run's one page isn't pinned, and is in none of the runs that these areas, which meet the span, have in
/// it; else 0.
fn new_page<A: Allocator>(
    run: PageRun,
    others: Iter<'_, A>,
    span: Span,
    memory: &UserMemory<A>,
) -> u64
    requires one { run.count ≡ 1 }
    requires lies { run_lies memory.now run ≡ true }
    requires met { list_all (λ area. meets area.span span) others ≡ true }
    ensures { result ≡ count_by (λ page. not (is_in_runs (runs.runs_in span others.entry) page))
        (new_in_runs memory.now (run ∷ [])) }
{
    let count = memory.new_pages_in(run);
    if count > 0 && is_among(others, span, run.number, run.first) {
        return 0;
    }
    count
}

/// Whether the page is in one of the runs that these areas, which meet the span, have in it.
fn is_among<A: Allocator>(areas: Iter<'_, A>, span: Span, number: u64, index: u64) -> bool
    requires { list_all (λ area. meets area.span span) areas ≡ true }
    ensures { result ≡ is_in_runs (runs.runs_in span areas.entry) (record { memory = number; index = index }) }
{
    for area in areas {
        if has_page(run_in(area, span), number, index) {
            return true;
        }
    }
    false
}

/// Whether the page is one of the run's.
fn has_page(run: PageRun, number: u64, index: u64) -> bool
    ensures { result ≡ covers run number index }
{
    run.number == number && run.first <= index && index - run.first < run.count
}
