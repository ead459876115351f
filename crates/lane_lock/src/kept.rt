//! What a lock keeps.

ghost use Rattle.std.specs.Prelude.{◌≡◌, ℕ, List, [], ◌∷◌, ◌++◌, length, IfOk, OnErr};

use iofd_words::{NoMemory, PassNo};

/// A value that a lock can keep: it stands for a list of records, its history, and an act adds one record.
pub trait Kept: Drop {
    /// What a writer can do to the value.
    type Act;
    /// What an act answers.
    type Stamp;
    /// An entry of the history. No value of it need be made.
    type Record;

    /// The history of the value.
    ghost history: { Self → List Self.Record };

    /// The number of the pass that made a record.
    ghost maker: { Self.Record → ℕ };

    /// How many entries of the history stand before its first record: those that tell what the value was opened with.
    ghost AHEAD: { ℕ };

    /// The same number, for the code.
    const AHEAD: u64;

    /// Where an act may be applied.
    ghost may: { Self → Self.Act → Type 0 };

    /// What an applied act does: the value before, the pass, the act, its stamp and the value after.
    ghost gives: { Self → ℕ → Self.Act → Self.Stamp → Self → Type 0 };

    /// Where memory may be wanting to apply an act: the value before, and the act.
    ghost wants: { Self → Self.Act → Type 0 };

    /// Applies an act for the pass, and so appends one record of this pass to the history. NoMemory comes only where
    /// memory may be wanting, and changes nothing of the history.
    fn apply(&mut self, pass: PassNo, act: &Self::Act) -> Result<Self::Stamp, NoMemory>
        requires { may self.old act.now }
        ensures record { IfOk result (λ _. (r : Self.Record) × (history self.new ≡ history self.old ++ r ∷ [])
            × (maker r ≡ pass.0)) }
        ensures gives { IfOk result (λ stamp. gives self.old pass.0 act.now stamp self.new) }
        ensures memory { OnErr result (wants self.old act.now) }
        ensures err { OnErr result (history self.new ≡ history self.old) };

    /// How many records the history has.
    fn len(&self) -> u64
        ensures { result ≡ length (history self.now) };
}
