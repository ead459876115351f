//! The flags of MAP and COPY, and the rights of an area.

ghost use Rattle.std.specs.Prelude.{⊤, ◌≡◌, [], ◌∷◌, codes};
ghost use Rattle.iofd_words.specs.Rights.{is_fixed, is_readable, is_writeable, rights_of, has_right};

use crate::fault::AccessKind;
use bitflags::{Flag, Flags, bitflag_items};

/// The flags of IOAS_MAP and IOAS_COPY (uapi header, `enum iommufd_ioas_map_flags`).
#[derive(Clone, Copy, PartialEq, Eq, Debug)]
pub struct MapFlags(pub u32);

bitflag_items! {
    impl MapFlags: u32 {
        const FIXED_IOVA = 1;
        const WRITEABLE = 2;
        const READABLE = 4;
    }
}

impl Flags for MapFlags {
    type Bits = u32;

    ghost exact = { ⊤ };

    ghost table = { (codes "FIXED_IOVA", 1) ∷ (codes "WRITEABLE", 2) ∷ (codes "READABLE", 4) ∷ [] };

    ghost set_of = { λ flags. flags.0 };

    fn flags<'a>() -> &'a [Flag<MapFlags>] {
        MapFlags::FLAGS
    }

    fn bits(&self) -> u32 {
        self.0
    }

    fn from_bits_retain(bits: u32) -> MapFlags {
        MapFlags(bits)
    }
}

impl MapFlags {
    /// Whether the caller gives the iova, rather than leaving its choice to the server.
    pub fn is_fixed(self) -> bool
        ensures { result ≡ is_fixed self }
    {
        self.contains(MapFlags::FIXED_IOVA)
    }

    /// Whether devices may read.
    pub fn is_readable(self) -> bool
        ensures { result ≡ is_readable self }
    {
        self.contains(MapFlags::READABLE)
    }

    /// Whether devices may write.
    pub fn is_writeable(self) -> bool
        ensures { result ≡ is_writeable self }
    {
        self.contains(MapFlags::WRITEABLE)
    }

    /// The rights that an area with these flags gives.
    pub fn rights(self) -> Rights
        ensures { result ≡ rights_of self }
    {
        match (self.is_readable(), self.is_writeable()) {
            (false, false) => Rights(0),
            (true, false) => Rights(1),
            (false, true) => Rights(2),
            (true, true) => Rights(3),
        }
    }
}

/// What a device may do with a page: the two low bits of a table entry (VT-d, "Second-Stage Paging
/// Entries": bit 0 read, bit 1 write).
#[derive(Clone, Copy, PartialEq, Eq, Debug)]
pub struct Rights(pub u8);

bitflag_items! {
    impl Rights: u8 {
        const READ = 1;
        const WRITE = 2;
    }
}

impl Flags for Rights {
    type Bits = u8;

    ghost exact = { ⊤ };

    ghost table = { (codes "READ", 1) ∷ (codes "WRITE", 2) ∷ [] };

    ghost set_of = { λ rights. rights.0 };

    fn flags<'a>() -> &'a [Flag<Rights>] {
        Rights::FLAGS
    }

    fn bits(&self) -> u8 {
        self.0
    }

    fn from_bits_retain(bits: u8) -> Rights {
        Rights(bits)
    }
}

impl Rights {
    /// Whether an access of this kind is allowed.
    pub fn allow(self, kind: AccessKind) -> bool
        ensures { result ≡ has_right self kind }
    {
        match kind {
            AccessKind::Read => self.contains(Rights::READ),
            AccessKind::Write => self.contains(Rights::WRITE),
        }
    }
}
