//! Answers of one kind.

ghost use Rattle.std.specs.Prelude.{IsTrue};
ghost use Rattle.iofd_steps.specs.Answers.{AnswersDone, AnswersFrame, AnswersId};
ghost use Rattle.iofd_words.specs.Frames.{is_free};
ghost use Rattle.iofd_words.specs.Objects.{is_fresh};
ghost use Rattle.journal_audit_world.specs.Decides.{Decides};

use iofd_words::{FileNo, Reply};
use journal_audit_world::{World, objects};
use std::alloc::Allocator;

/// Whether the answer is that it is done.
pub fn is_done(reply: Reply) -> bool
    ensures { Decides result (AnswersDone reply) }
{
    matches!(reply, Reply::Done)
}

/// Whether the answer is a frame that nobody reaches.
pub fn is_free_frame<A: Allocator>(world: &World<A>, reply: Reply) -> bool
    ensures { let w = world.now in Decides result (AnswersFrame (λ frame.
        IsTrue (is_free w.settings.pool w.user_pages w.pins w.table_frames frame.0)) reply) }
{
    match reply {
        Reply::Frame(frame) => world.is_free(frame),
        _ => false,
    }
}

/// Whether the answer is an id that may be given out in the file.
pub fn is_fresh_id<A: Allocator>(world: &World<A>, file: FileNo, reply: Reply) -> bool
    ensures { Decides result (AnswersId (λ id. IsTrue (is_fresh world.now.objects file id)) reply) }
{
    match reply {
        Reply::Id(id) => objects::is_fresh(&world.objects, file, id),
        _ => false,
    }
}
