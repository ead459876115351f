//! The frames of tables that a record takes and gives back.

ghost use Rattle.std.specs.Prelude.{◌≡◌, ◌≤◌, ◌++◌, length, ℕ, IsTrue, IfOk};
ghost use Rattle.iofd_steps.specs.After.{changed};
ghost use Rattle.iofd_words.specs.Tables.{MovesTables, in_frames, with_tables};
ghost use Rattle.iofd_words.specs.World as words;
ghost use Rattle.journal_audit_tables.specs.Coming.{ComingFits};
ghost use Rattle.journal_audit_tables.specs.Moved.{IsLeftBy, is_enough, row_of, taken_world, without_given};
ghost use Rattle.journal_audit_world.specs.Decides.{Decides};
ghost use Rattle.journal_audit_world.specs.Unwritten.{unwritten};

use crate::coming::{Coming, missing_with};
use crate::given::{are_given, thinned_by};
use crate::place::Missing;
use iofd_words::{Event, FrameNo, Iova, NoMemory, Reply, TableFrame};
use journal_audit_events::gone::Gone;
use journal_audit_world::{World, tables};
use std::alloc::Allocator;

// The missing tables too, in these frames.
fn add_in_frames<A: Allocator>(
    tables: &mut Vec<TableFrame, A>,
    missing: &[Missing],
    frames: &[FrameNo],
) -> Result<(), NoMemory>
    requires { length missing.now ≤ length frames.now }
    ensures { IfOk result (λ _. tables.new.items ≡ tables.old.items ++ in_frames missing.now frames.now) }
{
    for index in 0..missing.len() {
        tables.push(row_of(missing[index], frames[index]))?;
    }
    Ok(())
}

fn row_of(missing: Missing, frame: FrameNo) -> TableFrame
    ensures { result ≡ row_of missing frame }
{
    TableFrame {
        file: missing.file,
        hwpt: missing.hwpt,
        level: missing.level,
        first: Iova(missing.first),
        frame,
    }
}

// Whether so many frames are taken as tables are missing. If so these stand in them then.
fn take<A: Allocator + Copy>(
    alloc: A,
    world: &mut World<A>,
    coming: Coming,
    taken: &[FrameNo],
) -> Result<bool, NoMemory>
    requires { ComingFits coming }
    ensures enough { IfOk result (λ enough. enough ≡ is_enough coming world.old taken.now) }
    ensures after { IfOk result (λ enough. IsTrue enough → world.new ≡ taken_world coming world.old taken.now) }
{
    let missing = missing_with(alloc, world, coming)?;
    if taken.len() != missing.len() {
        return Ok(false);
    }
    add_in_frames(&mut world.table_frames, &missing, taken)?;
    Ok(true)
}

// The tables in these frames go.
fn give_back<A: Allocator>(world: &mut World<A>, given: &[FrameNo])
    ensures { world.new ≡ without_given given.now world.old }
{
    tables::give_back(&mut world.table_frames, given);
}

/// Whether a record whose event has left this world, and whose frames were free before it, takes one for each table
/// that
/// is missing, and gives back those of tables that go, and others only if they may. If so the world gets and loses
/// these tables; else, and where memory is wanted, it is in any state.
pub fn move_tables<A: Allocator + Copy>(
    alloc: A,
    world: &mut World<A>,
    gone: Gone,
    coming: Coming,
    event: &Event<A>,
    reply: Reply,
    taken: &[FrameNo],
    given: &[FrameNo],
) -> Result<bool, NoMemory>
    requires { ComingFits coming }
    ensures moved { IfOk result (λ moved. (at : ℕ) (w : words.World)
        → IsLeftBy at w world.old event.now reply taken.now gone coming
        → Decides moved (MovesTables w (changed at w event.now reply) event.now reply taken.now given.now)) }
    ensures after { IfOk result (λ moved. (at : ℕ) (w : words.World)
        → IsLeftBy at w world.old event.now reply taken.now gone coming → IsTrue moved
        → unwritten world.new ≡ unwritten (with_tables taken.now given.now (changed at w event.now reply))) }
{
    if !are_given(alloc, world, gone, thinned_by(event, reply), given)? {
        return Ok(false);
    }
    give_back(world, given);
    let is_enough = take(alloc, world, coming, taken)?;
    Ok(is_enough)
}
