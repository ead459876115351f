//! The bytes of one access that a script spells.

ghost use Rattle.std.specs.Prelude.{◌≡◌, Some, None, length, if◌then◌else◌};
ghost use Rattle.iofd_words.specs.Settings.{is_between};

use crate::hex_bytes::HexBytes;
use iofd_words::Burst;
use std::marker::Model;

/// The bytes of one access, 1 to 64, as the digits that the script has for them: a step with them stays small.
#[derive(Drop)]
pub struct AccessBytes<'a> {
    bytes: HexBytes<'a>,
}

impl<'a> Model for AccessBytes<'a> {
    ghost use Rattle.std.specs.Prelude.{List, ℕ, ◌<◌, ◌≤◌, length};

    ghost Value = { List ℕ };

    ghost view = { λ access. access.bytes };

    ghost invariant = { λ access. (0 < length access.bytes) × (length access.bytes ≤ 64) };
}

impl<'a> AccessBytes<'a> {
    // These bytes; None where they aren't 1 to 64.
    pub fn of(bytes: HexBytes<'a>) -> Option<AccessBytes<'a>>
        ensures { result ≡ (if is_between 1 64 (length bytes.entry) then Some bytes.entry else None) }
    {
        let len = bytes.len();
        if len == 0 || len > Burst::MAX {
            return None;
        }
        Some(AccessBytes { bytes })
    }

    /// They, decoded.
    pub fn burst(&self) -> Burst
        ensures { result ≡ self.now }
    {
        let mut bytes = [0; 64];
        self.bytes.write_to(&mut bytes);
        Burst::from_padded(bytes, self.bytes.len()).unwrap()
    }
}
