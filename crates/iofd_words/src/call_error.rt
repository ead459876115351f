//! Why a call did nothing.

ghost use Rattle.std.specs.Prelude.{◌≡◌};
ghost use Rattle.iofd_words.specs.declared.call_error.CallError.TheVariants as error;

use crate::refusal::{NoMemory, Refusal};

/// Why a call did nothing: it is refused, or there is no memory for it.
#[derive(Clone, Copy, PartialEq, Eq, Debug)]
pub enum CallError {
    /// It is refused. The call's own comment says for which causes.
    Refused(Refusal),
    /// Nothing refuses it, and memory is wanting.
    Memory(NoMemory),
}

impl From<Refusal> for CallError {
    ghost from_gives = { λ refusal made. made ≡ error.Refused refusal };

    fn from(refusal: Refusal) -> CallError {
        CallError::Refused(refusal)
    }
}

impl From<NoMemory> for CallError {
    ghost from_gives = { λ no_memory made. made ≡ error.Memory no_memory };

    fn from(no_memory: NoMemory) -> CallError {
        CallError::Memory(no_memory)
    }
}
