//! The record of a step.

ghost use Rattle.std.specs.Prelude.{◌≡◌, false, IfOk, OnErr};
ghost use Rattle.iofd_words.specs.Record.{is_report, moves_one_way};

use crate::event::Event;
use crate::numbers::{FrameNo, PassNo};
use crate::refusal::NoMemory;
use crate::reply::Reply;
use crate::told::Told;
use std::alloc::{Allocator, Global};
use std::marker::Model;

/// One step: who made it, what was asked, what was answered, and the table frames that moved.
pub struct Record<A: Allocator = Global> {
    // In front, so that whoever drops a history reads the first bytes of each record alone.
    told: Told<A>,
    event: Event<A>,
}

// Written out, so that it is proved here alone and not in each crate that drops one.
impl<A: Allocator> Drop for Record<A> {
    fn drop(self) {
        let Record { told: _, event: _ } = self;
    }
}

impl<A: Allocator> Model for Record<A> {
    ghost use Rattle.iofd_words.specs.Record.{Record};
    ghost use Rattle.iofd_words.specs.Told.{given_of, pass_of, reply_of, taken_of};

    ghost Value = { Record A };

    ghost view = { λ one. record {
      pass = pass_of one.told;
      event = one.event;
      reply = reply_of one.told;
      taken = taken_of one.told;
      given = given_of one.told;
    } };
}

impl<A: Allocator> Record<A> {
    /// The record of a step, with the frames that it took from the pool and those that it gave back, each in order. It
    /// takes memory only where there are some of both, or some beside a report, as in no lawful step.
    pub fn new(
        alloc: A,
        pass: PassNo,
        event: Event<A>,
        reply: Reply,
        taken: Vec<FrameNo, A>,
        given: Vec<FrameNo, A>,
    ) -> Result<Record<A>, NoMemory>
        ensures ok { IfOk result (λ one. one ≡ record {
          pass = pass;
          event = event;
          reply = reply;
          taken = taken.items;
          given = given.items;
        }) }
        ensures memory { OnErr result (moves_one_way (is_report reply) taken.items given.items ≡ false) }
    {
        let told = Told::new(alloc, pass, reply, taken, given)?;
        Ok(Record { told, event })
    }

    /// Who made the step.
    pub fn pass(&self) -> PassNo
        ensures { result ≡ self.now.pass }
    {
        self.told.pass()
    }

    /// What was asked.
    pub fn event(&self) -> &Event<A>
        ensures { result.now ≡ self.now.event }
    {
        &self.event
    }

    /// What was answered.
    pub fn reply(&self) -> Reply
        ensures { result ≡ self.now.reply }
    {
        self.told.reply()
    }

    /// The table frames that it took from the pool, in order.
    pub fn taken(&self) -> &[FrameNo]
        ensures { result.now ≡ self.now.taken }
    {
        self.told.taken()
    }

    /// The table frames that it gave back to the pool, in order.
    pub fn given(&self) -> &[FrameNo]
        ensures { result.now ≡ self.now.given }
    {
        self.told.given()
    }
}
