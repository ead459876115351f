//! Blocks of rows. Of so many rows, one behind the other, is kept where their areas begin and end and a bound that no
//! gap between two of them passes, so that a search passes over a block as it does over a row. A bound that is wider
//! than the widest gap makes a search look into the block, and no more.

ghost use Rattle.std.specs.Prelude.{◌≡◌, ◌+◌, ◌*◌, ◌/◌, ◌%◌, ◌<◌, ◌≤◌, ◌^◌};
ghost use Rattle.std.specs.Prelude.{◌++◌, ◌∷◌, [], IsTrue, List, OnErr, OnOk};
ghost use Rattle.std.specs.Prelude.{length, max, min};
ghost use Rattle.area_map_rows.specs.Rows.{in_rows, AreRows, end_of, first_of, widest_behind, widest_of};
ghost use Rattle.area_map.specs.Blocks.{AreBlocks, AreBlocksBut, IsBlockOf, IsSameBut, block_of};
ghost use Rattle.area_map.specs.Blocks.{gap_before, listed, rows_of, widest_around};
ghost use Rattle.iofd_words.specs.declared.rows.Area.{Area};

use area_map_rows::Row;
use iofd_words::NoMemory;
use std::alloc::{Allocator, Global};
use std::marker::Model;

// How many rows a block has. It is looked through at times, so it isn't long.
const BLOCK: usize = 32;

/// What is kept of a block's rows.
#[derive(Clone, Copy)]
pub struct Block {
    first: u64,
    end: u64,
    // No gap between two areas is wider.
    widest: u64,
}

impl Block {
    // What is kept of no rows.
    const NONE: Block = Block {
        first: u64::MAX,
        end: 0,
        widest: 0,
    };

    /// Whether so many addresses from the place on reach the block.
    pub fn is_reached(&self, at: u128, count: u64) -> bool
        requires { at ≤ 2 ^ 64 }
        ensures { IsTrue result → self.now.first < at + count }
    {
        u128::from(self.first) < at + u128::from(count)
    }

    /// Whether it is known that no gap in it has so many addresses.
    pub fn is_narrow(&self, count: u64) -> bool
        ensures { IsTrue result → self.now.widest < count }
    {
        self.widest < count
    }

    /// Where a search goes on that passes over the block.
    pub fn behind(&self, at: u128) -> u128
        requires { at ≤ 2 ^ 64 }
        ensures value { result ≡ max at (self.now.end + 1) }
        ensures bound { result ≤ 2 ^ 64 }
    {
        at.max(u128::from(self.end) + 1)
    }
}

/// What is kept of the blocks. A contract sees their list. There may be more than the rows fill.
#[derive(Drop)]
pub(crate) struct Blocks<A: Allocator = Global> {
    // None as long as there has been no row.
    blocks: Option<Vec<Block, A>>,
}

impl<A: Allocator> Model for Blocks<A> {
    ghost use Rattle.std.specs.Prelude.{List};
    ghost use Rattle.area_map.specs.declared.blocks.Block.{Block};
    ghost use Rattle.area_map.specs.Blocks.{listed};

    ghost Value = { List Block };

    ghost view = { λ all. listed all.blocks };
}

impl<A: Allocator> Blocks<A> {
    /// No blocks. It takes no memory.
    pub(crate) fn new() -> Blocks<A>
        ensures { result ≡ [] }
    {
        Blocks { blocks: None }
    }

    /// What is kept of each.
    pub(crate) fn all(&self) -> &[Block]
        ensures { result.now ≡ self.now }
    {
        match &self.blocks {
            Some(blocks) => blocks.as_slice(),
            None => &[],
        }
    }

    /// Takes memory for the block of the row at this place, if there is none. All rows stand before the place.
    pub(crate) fn reserve(&mut self, alloc: A, place: usize) -> Result<(), NoMemory>
        requires { place ≤ 32 * length self.old }
        ensures blocks { (rows : List (List Area)) → AreBlocks self.old rows → length rows ≤ place
            → AreBlocks self.new rows }
        ensures more { length self.old ≤ length self.new }
        ensures ok { OnOk result (place < 32 * length self.new) }
    {
        if place / BLOCK < self.all().len() {
            return Ok(());
        }
        add_block(&mut self.blocks, alloc)
    }

    /// Renews what is kept, where no rows have changed but those from the one place on and before the other. `parted`
    /// is how wide the widest gap at a row was that may have been parted (`widest_at`); 0 where none was.
    pub(crate) fn renew(&mut self, rows: &[Row<A>], from: usize, to: usize, parted: u64)
        requires { AreRows rows.now }
        ensures blocks { (before : List (List Area)) → AreBlocks self.old before → IsSameBut from to before rows.now
            → AreBlocks self.new rows.now }
        ensures len { length self.new ≡ length self.old }
    {
        if let Some(blocks) = &mut self.blocks {
            renew_rows(rows, blocks, from, to, parted);
        }
    }
}

// One more block, which has no rows.
fn add_block<A: Allocator>(blocks: &mut Option<Vec<Block, A>>, alloc: A) -> Result<(), NoMemory>
    ensures ok { OnOk result (listed blocks.new ≡ listed blocks.old ++ block_of [] ∷ []) }
    ensures err { OnErr result (listed blocks.new ≡ listed blocks.old) }
{
    match blocks {
        Some(blocks) => Ok(blocks.push(Block::NONE)?),
        None => {
            let mut first = Vec::new(alloc);
            first.push(Block::NONE)?;
            *blocks = Some(first);
            Ok(())
        }
    }
}

// Renews the blocks, where no rows have changed but those from the one place on and before the other.
fn renew_rows<A: Allocator>(
    rows: &[Row<A>],
    blocks: &mut [Block],
    from: usize,
    to: usize,
    parted: u64,
)
    requires { AreRows rows.now }
    ensures { (before : List (List Area)) → AreBlocks blocks.old before → IsSameBut from to before rows.now
        → AreBlocks blocks.new rows.now }
{
    if to.saturating_sub(from) <= 1 {
        renew_at(rows, blocks, from, parted);
    } else {
        renew_between(rows, blocks, from / BLOCK, to / BLOCK + 1);
    }
}

// Renews the block of the row at this place, where no other row has changed.
fn renew_at<A: Allocator>(rows: &[Row<A>], blocks: &mut [Block], index: usize, parted: u64)
    requires { AreRows rows.now }
    ensures { (before : List (List Area)) → AreBlocks blocks.old before
        → IsSameBut index (index + 1) before rows.now → AreBlocks blocks.new rows.now }
{
    let number = index / BLOCK;
    if number < blocks.len() {
        let widest = blocks[number].widest;
        blocks[number] = changed_block(rows_of(rows, number), index % BLOCK, widest, parted);
    }
}

// What is kept of these rows, of which only the one at this place has changed, and of which no gap was wider than this
// before. The gaps that are new are at that row, so a few steps tell. All rows are looked through only where a gap as
// wide as the bound may have been parted, since the bound would stay too wide.
fn changed_block<A: Allocator>(rows: &[Row<A>], place: usize, widest: u64, parted: u64) -> Block
    requires rows { AreRows rows.now }
    requires place { place < 32 }
    ensures { (before : List (List Area)) → IsSameBut place (place + 1) before rows.now
        → widest_of (in_rows before) ≤ widest → IsBlockOf rows.now result }
{
    let around = widest_around(rows, place);
    if around < widest && widest <= parted {
        return block_of(rows);
    }
    Block {
        first: first_of(rows),
        end: end_of(rows),
        widest: widest.max(around),
    }
}

// Looks through these blocks.
fn renew_between<A: Allocator>(rows: &[Row<A>], blocks: &mut [Block], from: usize, to: usize)
    requires { AreRows rows.now }
    ensures { AreBlocksBut from to blocks.old rows.now → AreBlocks blocks.new rows.now }
{
    for number in from..to.min(blocks.len()) {
        blocks[number] = block_of(rows_of(rows, number));
    }
}

/// How many free addresses the widest gap has in the row at this place, and between it and those beside it in its
/// block.
pub(crate) fn widest_at<A: Allocator>(rows: &[Row<A>], index: usize) -> u64
    requires { AreRows rows.now }
    ensures { result ≡ widest_around (index % 32) (rows_of (index / 32) rows.now) }
{
    widest_around(rows_of(rows, index / BLOCK), index % BLOCK)
}

// How many free addresses the widest gap has in the row at this place among the rows of its block, and between it and
// those beside it.
fn widest_around<A: Allocator>(rows: &[Row<A>], place: usize) -> u64
    requires { place < 32 }
    ensures { result ≡ widest_around place rows.now }
{
    let own = match rows.get(place) {
        Some(row) => row.widest(),
        None => 0,
    };
    own.max(gap_before(rows, place).max(gap_before(rows, place + 1)))
}

// How many free addresses lie between the row before this place and the one at it; 0 where one of them is none.
fn gap_before<A: Allocator>(rows: &[Row<A>], place: usize) -> u64
    ensures { result ≡ gap_before place rows.now }
{
    if place == 0 || place >= rows.len() {
        return 0;
    }
    let end = rows[place - 1].end();
    rows[place].first().saturating_sub(end).saturating_sub(1)
}

/// At which row the block of this number begins, or how many rows there are.
pub fn begin_of<A: Allocator>(rows: &[Row<A>], number: usize) -> usize
    ensures { result ≡ min (32 * number) (length rows.now) }
{
    number.saturating_mul(BLOCK).min(rows.len())
}

/// The number of the first block that begins at the row of this place or behind it.
pub fn number_from(place: usize) -> usize
    ensures { result ≡ (place + 31) / 32 }
{
    place.div_ceil(BLOCK)
}

/// The rows of the block of this number.
pub(crate) fn rows_of<A: Allocator>(rows: &[Row<A>], number: usize) -> &[Row<A>]
    requires { AreRows rows.now }
    ensures value { result.now ≡ rows_of number rows.now }
    ensures rows { AreRows result.now }
{
    let rest = &rows[begin_of(rows, number)..];
    &rest[..BLOCK.min(rest.len())]
}

// What is kept of these rows.
fn block_of<A: Allocator>(rows: &[Row<A>]) -> Block
    requires { AreRows rows.now }
    ensures { result ≡ block_of rows.now }
{
    Block {
        first: first_of(rows),
        end: end_of(rows),
        widest: widest_of(rows),
    }
}

// Where the first of their areas begins.
fn first_of<A: Allocator>(rows: &[Row<A>]) -> u64
    requires { AreRows rows.now }
    ensures { result ≡ first_of (in_rows rows.now) }
{
    match rows.first() {
        Some(row) => row.first(),
        None => u64::MAX,
    }
}

// Where the last of their areas ends.
fn end_of<A: Allocator>(rows: &[Row<A>]) -> u64
    requires { AreRows rows.now }
    ensures { result ≡ end_of (in_rows rows.now) }
{
    match rows.last() {
        Some(row) => row.end(),
        None => 0,
    }
}

// How many free addresses the widest gap between two of their areas has.
fn widest_of<A: Allocator>(rows: &[Row<A>]) -> u64
    requires { AreRows rows.now }
    ensures { result ≡ widest_of (in_rows rows.now) }
{
    match rows.split_first() {
        Some((row, others)) => row.widest().max(widest_behind(row.end(), others)),
        None => 0,
    }
}

// How many free addresses the widest gap has between two of these rows' areas, or between the first and an area before
// them that ends at the address `last`.
fn widest_behind<A: Allocator>(last: u64, rows: &[Row<A>]) -> u64
    requires { AreRows rows.now }
    ensures { result ≡ widest_behind last (in_rows rows.now) }
{
    let mut widest = 0;
    let mut end = last;
    for row in rows {
        let gap = row.first().saturating_sub(end).saturating_sub(1);
        widest = row.widest().max(gap).max(widest);
        end = row.end();
    }
    widest
}
