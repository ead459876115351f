//! The width of the addresses that a device's tables translate.

ghost use Rattle.std.specs.Prelude.{◌≡◌, ◌^◌};
ghost use Rattle.iofd_words.specs.Width.{bits_of};

/// The address width of a device and of a hardware page table (VT-d, "Context Entry", address width).
#[derive(Clone, Copy, PartialEq, Eq, Debug)]
pub enum Width {
    /// 39 bits, three levels of tables.
    Bits39,
    /// 48 bits, four levels of tables.
    Bits48,
    /// 57 bits, five levels of tables.
    Bits57,
}

impl Width {
    /// How many bits an address has.
    pub fn bits(self) -> u8
        ensures { result ≡ bits_of self }
    {
        match self {
            Width::Bits39 => 39,
            Width::Bits48 => 48,
            Width::Bits57 => 57,
        }
    }

    /// The first address that is too large, 2 to the power of `bits`.
    pub fn end(self) -> u64
        ensures { result ≡ 2 ^ bits_of self }
    {
        match self {
            Width::Bits39 => 0x80_0000_0000,
            Width::Bits48 => 0x1_0000_0000_0000,
            Width::Bits57 => 0x200_0000_0000_0000,
        }
    }
}
