//! The versions of the format.

ghost use Rattle.std.specs.Prelude.{◌≡◌};
ghost use Rattle.journal_audit_bytes.specs.Version.{mark, width_of};

use iofd_words::Width;

/// A version of the format of journals. The mark at the front of a journal's head says which it is.
#[derive(Clone, Copy)]
pub enum Version {
    /// The addresses of a device have 39 or 48 bits, and no record is of dirty tracking.
    One,
    /// As version 1, but that they may have 57 bits, too, and that dirty tracking is recorded.
    Two,
}

impl Version {
    /// The first bytes of a journal of this version.
    pub fn mark(self) -> &'static [u8]
        ensures { result.now ≡ mark self }
    {
        match self {
            Version::One => b"IOFDJNL1",
            Version::Two => b"IOFDJNL2",
        }
    }

    /// The width of so many bits, if this version can spell it.
    pub fn width_of(self, bits: u8) -> Option<Width>
        ensures { result ≡ width_of self bits }
    {
        match (self, bits) {
            (_, 39) => Some(Width::Bits39),
            (_, 48) => Some(Width::Bits48),
            (Version::Two, 57) => Some(Width::Bits57),
            _ => None,
        }
    }
}
