//! Calls on one page table, one after the other, with what each answers.

ghost use Rattle.std.specs.Prelude.{IsTrue};
ghost use Rattle.page_table_words.specs.Mapped.{IsBelow, IsTable};

use frame_memory::Pool;
use iofd_words::{Cause, FrameNo, NoMemory, PAGE_SIZE, Rights, Span, Width};
use page_table::{Table, Walk};
use std::alloc::Global;

const READ: u8 = 1;

const WRITE: u8 = 2;

const BOTH: u8 = 3;

/// A call on a page table.
#[derive(Clone, Copy)]
enum Call {
    /// With the page's number, its frame and its rights.
    Map(u64, u32, u8),
    Clear(u64),
    Walk(u64),
    /// With the first and the last page of two spans.
    Needs(u64, u64, u64, u64),
    /// With the first and the last page of a kept span, which may lie above the width: how many go, as `prunable` says.
    Prune(u64, u64),
    Frames,
    FreeCount,
    /// A word of a frame.
    Word(u32, usize),
    /// The frame that was taken as the so manieth, from 0.
    Taken(usize),
}

/// What a call answers.
#[derive(Clone, Copy, PartialEq, Eq)]
enum Answer {
    Done,
    Gives(u64),
    /// The frame and the rights.
    Hit(u32, u8),
    Nowhere,
    Beyond,
    Refused(Cause),
    /// The call's terms aren't met, so it wasn't made.
    Barred,
}

/// Keeps a span above every width, so that all go through which no mapped page goes.
const ALL_GO: Call = Call::Prune(0x2000_0000_0000, 0x2000_0000_0000);

const FULL: Answer = Answer::Refused(Cause::Frames);

fn is_below(table: &Table, page: u64) -> bool
    ensures { IsTrue result → IsBelow table.now.width page }
{
    page < table.width().end() / PAGE_SIZE
}

fn mapped(
    pool: &mut Pool,
    table: &mut Table,
    out: &mut Vec<FrameNo>,
    page: u64,
    frame: u32,
    rights: u8,
) -> Answer
    requires { IsTable pool.old table.old }
    ensures { IsTable pool.new table.new }
{
    if !is_below(table, page) || rights == 0 || rights > 3 || out.capacity() - out.len() < 4 {
        return Answer::Barred;
    }
    match table.map(pool, page, FrameNo(frame), Rights(rights), out) {
        Ok(()) => Answer::Done,
        Err(refusal) => Answer::Refused(refusal.cause),
    }
}

fn cleared(pool: &mut Pool, table: &mut Table, page: u64) -> Answer
    requires { IsTable pool.old table.old }
    ensures { IsTable pool.new table.new }
{
    if !is_below(table, page) {
        return Answer::Barred;
    }
    table.clear(pool, page);
    Answer::Done
}

fn walked(walk: Walk) -> Answer {
    match walk {
        Walk::Hit { frame, rights } => Answer::Hit(frame.0, rights.0),
        Walk::Beyond => Answer::Beyond,
        Walk::None => Answer::Nowhere,
    }
}

fn needed(pool: &Pool, table: &Table, first: Span, second: Span) -> Answer
    requires { IsTable pool.now table.now }
{
    if first.last() >= second.first() || second.last() >= table.width().end() {
        return Answer::Barred;
    }
    Answer::Gives(table.needs(pool, &[first, second]))
}

fn span_of(first: u64, last: u64) -> Option<Span> {
    Span::new(
        first.checked_mul(PAGE_SIZE)?,
        last.checked_mul(PAGE_SIZE)?.checked_add(PAGE_SIZE - 1)?,
    )
}

fn needed_by_pages(pool: &Pool, table: &Table, pages: (u64, u64, u64, u64)) -> Answer
    requires { IsTable pool.now table.now }
{
    let (Some(first), Some(second)) = (span_of(pages.0, pages.1), span_of(pages.2, pages.3)) else {
        return Answer::Barred;
    };
    needed(pool, table, first, second)
}

/// How many tables went, where a span is kept.
fn pruned(
    pool: &mut Pool,
    table: &mut Table,
    out: &mut Vec<FrameNo>,
    first: u64,
    last: u64,
) -> Answer
    requires { IsTable pool.old table.old }
    ensures { IsTable pool.new table.new }
{
    let Some(span) = span_of(first, last) else {
        return Answer::Barred;
    };
    let kept = [span];
    let count = table.prunable(pool, &kept);
    if ((out.capacity() - out.len()) as u64) < count {
        return Answer::Barred;
    }
    table.prune(pool, &kept, out);
    Answer::Gives(count)
}

fn word(pool: &Pool, frame: u32, index: usize) -> Answer {
    if !pool.has(FrameNo(frame)) || index >= 512 {
        return Answer::Barred;
    }
    Answer::Gives(pool.word(FrameNo(frame), index))
}

fn taken(out: &[FrameNo], place: usize) -> Answer {
    match out.get(place) {
        Some(frame) => Answer::Gives(u64::from(frame.0)),
        None => Answer::Barred,
    }
}

fn asked(pool: &mut Pool, table: &mut Table, out: &mut Vec<FrameNo>, call: Call) -> Answer
    requires { IsTable pool.old table.old }
    ensures { IsTable pool.new table.new }
{
    match call {
        Call::Map(page, frame, rights) => mapped(pool, table, out, page, frame, rights),
        Call::Clear(page) => cleared(pool, table, page),
        Call::Walk(iova) => walked(table.walk(pool, iova)),
        Call::Needs(a, b, c, d) => needed_by_pages(pool, table, (a, b, c, d)),
        Call::Prune(first, last) => pruned(pool, table, out, first, last),
        Call::Frames => Answer::Gives(table.frames(pool)),
        Call::FreeCount => Answer::Gives(u64::from(pool.free_count())),
        Call::Word(frame, index) => word(pool, frame, index),
        Call::Taken(place) => taken(out, place),
    }
}

/// The place of the first call that isn't answered so.
fn first_wrong(
    pool: &mut Pool,
    table: &mut Table,
    out: &mut Vec<FrameNo>,
    rows: &[(Call, Answer)],
) -> Option<usize>
    requires { IsTable pool.old table.old }
    ensures { IsTable pool.new table.new }
{
    for (place, (call, answer)) in rows.iter().enumerate() {
        if asked(pool, table, out, *call) != *answer {
            return Some(place);
        }
    }
    None
}

/// Whether all its frames come back, and are free.
fn releases_all(pool: &mut Pool, table: Table, out: &mut Vec<FrameNo>) -> bool
    requires { IsTable pool.old table }
{
    let frames = table.frames(pool);
    let before = u64::from(pool.free_count());
    out.clear();
    if (out.capacity() as u64) < frames {
        return false;
    }
    table.release(pool, out);
    u64::from(pool.free_count()) == before + frames
}

/// How many frames are taken first, the width of the page table, and the calls on it.
type Run = (u32, Width, &'static [(Call, Answer)]);

/// The place of the first call that isn't answered so. Where no page table is had, or its frames don't come back in the
/// end, it is the number of calls.
fn run(pool: &mut Pool, out: &mut Vec<FrameNo>, (taken, width, rows): Run) -> Option<usize> {
    for _ in 0..taken {
        let _ = pool.take();
    }
    if out.capacity() - out.len() < 1 {
        return Some(rows.len());
    }
    let Ok(mut table) = Table::new(pool, width, out) else {
        return Some(rows.len());
    };
    let wrong = first_wrong(pool, &mut table, out, rows);
    if releases_all(pool, table, out) {
        wrong
    } else {
        Some(rows.len())
    }
}

// the example of the formats, where two frames are taken first
const EXAMPLE: &[(Call, Answer)] = &[
    (Call::Taken(0), Answer::Gives(2)),
    (Call::Frames, Answer::Gives(1)),
    (Call::Needs(1, 1, 2, 2), Answer::Gives(2)),
    (Call::Map(1, 0, BOTH), Answer::Done),
    (Call::Taken(1), Answer::Gives(3)),
    (Call::Taken(2), Answer::Gives(4)),
    (Call::Word(2, 0), Answer::Gives(0x3003)),
    (Call::Word(2, 1), Answer::Gives(0)),
    (Call::Word(3, 0), Answer::Gives(0x4003)),
    (Call::Word(3, 1), Answer::Gives(0)),
    (Call::Word(4, 1), Answer::Gives(0x3)),
    (Call::Word(4, 0), Answer::Gives(0)),
    (Call::Walk(0x1000), Answer::Hit(0, BOTH)),
    (Call::Walk(0x1fff), Answer::Hit(0, BOTH)),
    (Call::Walk(0xfff), Answer::Nowhere),
    (Call::Walk(0x2000), Answer::Nowhere),
    (Call::Frames, Answer::Gives(3)),
    (Call::FreeCount, Answer::Gives(11)),
];

// both ends of a width
const ENDS_OF_39: &[(Call, Answer)] = &[
    (Call::Map(0, 1, READ), Answer::Done),
    (Call::Map(0x7ff_ffff, 2, WRITE), Answer::Done),
    (Call::Walk(0), Answer::Hit(1, READ)),
    (Call::Walk(0x7f_ffff_ffff), Answer::Hit(2, WRITE)),
    (Call::Walk(0x7f_ffff_efff), Answer::Nowhere),
    (Call::Walk(0x80_0000_0000), Answer::Beyond),
    (Call::Frames, Answer::Gives(5)),
];

const ENDS_OF_48: &[(Call, Answer)] = &[
    (Call::Map(0, 1, READ), Answer::Done),
    (Call::Map(0xf_ffff_ffff, 2, WRITE), Answer::Done),
    (Call::Walk(0xffff_ffff_ffff), Answer::Hit(2, WRITE)),
    (Call::Walk(0x80_0000_0000), Answer::Nowhere),
    (Call::Walk(0x1_0000_0000_0000), Answer::Beyond),
    (Call::Frames, Answer::Gives(7)),
];

// the second entry of the root leads to what no table of 48 bits translates
const ENDS_OF_57: &[(Call, Answer)] = &[
    (Call::Needs(0, 0, 1, 1), Answer::Gives(4)),
    (Call::Map(0, 1, READ), Answer::Done),
    (Call::Map(0x1fff_ffff_ffff, 2, WRITE), Answer::Done),
    (Call::Walk(0), Answer::Hit(1, READ)),
    (Call::Walk(0x1ff_ffff_ffff_ffff), Answer::Hit(2, WRITE)),
    (Call::Walk(0x1_0000_0000_0000), Answer::Nowhere),
    (Call::Walk(0x200_0000_0000_0000), Answer::Beyond),
    (Call::Word(0, 0), Answer::Gives(0x1003)),
    (Call::Word(0, 1), Answer::Gives(0)),
    (Call::Word(0, 511), Answer::Gives(0x5003)),
    (Call::Word(4, 0), Answer::Gives(0x1001)),
    (Call::Word(8, 511), Answer::Gives(0x2002)),
    (Call::Frames, Answer::Gives(9)),
    (Call::Clear(0), Answer::Done),
    (Call::Prune(1, 1), Answer::Gives(0)),
    (ALL_GO, Answer::Gives(4)),
    (Call::Taken(12), Answer::Gives(4)),
    (Call::Frames, Answer::Gives(5)),
];

const NEEDED: &[(Call, Answer)] = &[
    // one last table, and then one more for each 512 pages; the one that both share is counted once
    (Call::Needs(0, 511, 512, 1023), Answer::Gives(3)),
    (Call::Needs(0, 512, 513, 513), Answer::Gives(3)),
    (
        Call::Needs(0, 0x3_ffff, 0x4_0000, 0x4_0000),
        Answer::Gives(515),
    ),
    (Call::Map(512, 9, BOTH), Answer::Done),
    (Call::Needs(0, 511, 512, 1023), Answer::Gives(1)),
    (Call::Clear(512), Answer::Done),
    (Call::Needs(512, 600, 601, 1023), Answer::Gives(0)),
];

const AGAIN: &[(Call, Answer)] = &[
    (Call::Map(5, 7, BOTH), Answer::Done),
    (Call::Map(6, 8, BOTH), Answer::Done),
    (Call::Clear(5), Answer::Done),
    (Call::Walk(0x5000), Answer::Nowhere),
    (Call::Walk(0x6000), Answer::Hit(8, BOTH)),
    (Call::Clear(0x4_0000), Answer::Done),
    (Call::Map(5, 0xffff_ffff, READ), Answer::Done),
    (Call::Map(6, 3, WRITE), Answer::Done),
    (Call::Walk(0x5123), Answer::Hit(0xffff_ffff, READ)),
    (Call::Word(2, 5), Answer::Gives(0xfff_ffff_f001)),
    (Call::Walk(0x6000), Answer::Hit(3, WRITE)),
    (Call::Frames, Answer::Gives(3)),
];

const PRUNED: &[(Call, Answer)] = &[
    // the root and a way of two tables; one more of the last level, and another way
    (Call::Map(0, 9, BOTH), Answer::Done),
    (Call::Map(512, 9, BOTH), Answer::Done),
    (Call::Map(0x4_0000, 9, READ), Answer::Done),
    (Call::Frames, Answer::Gives(6)),
    (ALL_GO, Answer::Gives(0)),
    (Call::Clear(512), Answer::Done),
    // a kept span keeps the table, from its first page to its last
    (Call::Prune(512, 512), Answer::Gives(0)),
    (Call::Prune(1023, 1023), Answer::Gives(0)),
    (Call::Prune(0, 0x7ff_ffff), Answer::Gives(0)),
    (Call::Frames, Answer::Gives(6)),
    (Call::Word(1, 1), Answer::Gives(0x3003)),
    (Call::Prune(0, 511), Answer::Gives(1)),
    (Call::Taken(6), Answer::Gives(3)),
    (Call::Word(1, 1), Answer::Gives(0)),
    (Call::Word(1, 0), Answer::Gives(0x2003)),
    (Call::FreeCount, Answer::Gives(11)),
    (Call::Walk(0), Answer::Hit(9, BOTH)),
    (Call::Walk(0x4000_0000), Answer::Hit(9, READ)),
    // the least free frame is the one that came back
    (Call::Map(513, 7, WRITE), Answer::Done),
    (Call::Taken(7), Answer::Gives(3)),
    (Call::Walk(0x20_1000), Answer::Hit(7, WRITE)),
    (Call::Walk(0x20_0000), Answer::Nowhere),
    // of a table below another that is kept, that one alone; the root stays
    (Call::Clear(0x4_0000), Answer::Done),
    (Call::Clear(0), Answer::Done),
    (Call::Clear(513), Answer::Done),
    (Call::Prune(0, 0), Answer::Gives(3)),
    (ALL_GO, Answer::Gives(2)),
    (Call::Frames, Answer::Gives(1)),
    (Call::FreeCount, Answer::Gives(15)),
];

const PRUNED_IN_ORDER: &[(Call, Answer)] = &[
    // the later page's tables have the lower numbers
    (Call::Map(0x800_0200, 9, BOTH), Answer::Done),
    (Call::Map(0, 9, BOTH), Answer::Done),
    (Call::Clear(0x800_0200), Answer::Done),
    (Call::Clear(0), Answer::Done),
    (ALL_GO, Answer::Gives(6)),
    (Call::Taken(7), Answer::Gives(1)),
    (Call::Taken(8), Answer::Gives(2)),
    (Call::Taken(12), Answer::Gives(6)),
];

// three frames are free behind the root
const SHORT: &[(Call, Answer)] = &[
    (Call::Map(0, 9, BOTH), Answer::Done),
    // two tables are lacked, and one frame is free
    (Call::Map(0x4_0000, 9, BOTH), FULL),
    (Call::FreeCount, Answer::Gives(1)),
    // one is lacked
    (Call::Map(512, 9, BOTH), Answer::Done),
    (Call::Walk(0x20_0000), Answer::Hit(9, BOTH)),
    // none is free, and one is lacked or none
    (Call::Map(1024, 9, BOTH), FULL),
    (Call::Map(513, 9, READ), Answer::Done),
];

static RUNS: [Run; 9] = [
    (2, Width::Bits39, EXAMPLE),
    (0, Width::Bits39, ENDS_OF_39),
    (0, Width::Bits48, ENDS_OF_48),
    (0, Width::Bits57, ENDS_OF_57),
    (0, Width::Bits39, NEEDED),
    (0, Width::Bits39, AGAIN),
    (0, Width::Bits39, PRUNED),
    (0, Width::Bits48, PRUNED_IN_ORDER),
    (12, Width::Bits39, SHORT),
];

/// The same in a pool of 16 frames.
fn run_of_16(alloc: Global, row: Run) -> Result<Option<usize>, NoMemory> {
    let mut pool = Pool::new(alloc, 16)?;
    let mut out = Vec::with_capacity(alloc, 64)?;
    Ok(run(&mut pool, &mut out, row))
}

/// The place of the first run that isn't so, and that of its call.
fn first_wrong_run(alloc: Global) -> Result<Option<(usize, usize)>, NoMemory> {
    for (place, row) in RUNS.iter().enumerate() {
        if let Some(call) = run_of_16(alloc, *row)? {
            return Ok(Some((place, call)));
        }
    }
    Ok(None)
}

#[test]
fn each_call_answers_as_its_row_says(rt: HostRuntime) {
    assert!(rt; matches!(first_wrong_run(rt.alloc()), Ok(None)));
}
