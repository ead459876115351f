//! Why a script isn't carried out.

use iofd_words::NoMemory;

/// Why a script isn't carried out.
#[derive(Clone, Copy, PartialEq, Eq, Debug)]
pub enum ScriptError {
    /// The first bad line, counted from 1.
    BadLine(u64),
    /// The memory for its head was refused. The script is good.
    NoMemory,
}

impl From<NoMemory> for ScriptError {
    ghost use Rattle.std.specs.Prelude.{◌≡◌};
    ghost use Rattle.iommufd_script.specs.declared.error.ScriptError.TheVariants as errors;

    ghost from_gives = { λ _ e. e ≡ errors.NoMemory };

    fn from(_error: NoMemory) -> ScriptError {
        ScriptError::NoMemory
    }
}
