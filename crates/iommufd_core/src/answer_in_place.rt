//! An answer whose bytes stay in the memory that was read.

ghost use Rattle.std.specs.Prelude.{◌≡◌, ◌<◌, ◌≤◌, IfSome, length};
ghost use Rattle.iofd_words.specs.declared.query.Answer.TheVariants as answer;

use iofd_words::{Answer, Burst};
use std::marker::Model;

/// An answer to a question. The bytes of a read stay in the memory that was read, so that whoever tells them copies
/// them once; a contract sees the answer.
#[derive(Drop)]
pub struct AnswerInPlace<'a> {
    told: Told<'a>,
}

#[derive(Drop)]
enum Told<'a> {
    // 1 to 64 bytes that were read.
    Bytes(&'a [u8]),
    // Any other answer, or one that has its bytes itself.
    Whole(Answer),
}

impl<'a> Model for AnswerInPlace<'a> {
    ghost use Rattle.iofd_words.specs.declared.query.Answer.{Answer};

    ghost Value = { Answer };

    ghost use Rattle.iommufd_core.specs.AnswerInPlace.{answer_of, IsShort};

    ghost view = { λ answer. answer_of answer.told };

    ghost invariant = { λ answer. IsShort answer.told };
}

impl<'a> AnswerInPlace<'a> {
    // These bytes were read.
    pub(crate) fn read(bytes: &'a [u8]) -> AnswerInPlace<'a>
        requires some { 0 < length bytes.now }
        requires few { length bytes.now ≤ 64 }
        ensures { result ≡ answer.Read bytes.now }
    {
        AnswerInPlace {
            told: Told::Bytes(bytes),
        }
    }

    // This answer, which has its bytes itself where it has some.
    pub(crate) fn of(whole: Answer) -> AnswerInPlace<'a>
        ensures { result ≡ whole }
    {
        AnswerInPlace {
            told: Told::Whole(whole),
        }
    }

    /// The bytes that were read, in the memory that was read; None where it is another answer, or one that has its
    /// bytes itself.
    pub fn bytes(&self) -> Option<&'a [u8]>
        ensures read { IfSome result (λ bytes. self.now ≡ answer.Read bytes.now) }
        ensures some { IfSome result (λ bytes. 0 < length bytes.now) }
        ensures few { IfSome result (λ bytes. length bytes.now ≤ 64) }
    {
        match self.told {
            Told::Bytes(bytes) => Some(bytes),
            Told::Whole(_) => None,
        }
    }

    /// The answer, with a copy of the bytes where some were read.
    pub fn answer(&self) -> Answer
        ensures { result ≡ self.now }
    {
        match self.told {
            Told::Bytes(bytes) => Answer::Read(Burst::new(bytes).unwrap()),
            Told::Whole(whole) => whole,
        }
    }
}
