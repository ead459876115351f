//! Denied accesses of devices.

ghost use Rattle.std.specs.Prelude.{◌≡◌};
ghost use Rattle.iofd_words.specs.Fault.{reason_number, denied_by};

use crate::numbers::SourceId;

/// Whether memory is read or written.
#[derive(Clone, Copy, PartialEq, Eq, Debug)]
pub enum AccessKind {
    Read,
    Write,
}

impl AccessKind {
    /// The reason of a fault where the page isn't mapped with the right that this access needs.
    pub fn denied(self) -> FaultReason
        ensures { result ≡ denied_by self }
    {
        match self {
            AccessKind::Read => FaultReason::ReadDenied,
            AccessKind::Write => FaultReason::WriteDenied,
        }
    }
}

/// Why the IOMMU denies an access (VT-d, "Fault Reasons", legacy mode).
#[derive(Clone, Copy, PartialEq, Eq, Debug)]
pub enum FaultReason {
    /// The device has no attachment: its context entry isn't present.
    NoContext,
    /// The address is at or above the width of the device's tables.
    BeyondWidth,
    /// A write of a page that isn't mapped for writes.
    WriteDenied,
    /// A read of a page that isn't mapped for reads.
    ReadDenied,
}

impl FaultReason {
    /// The number of the reason in the standard: 2, 4, 5 or 6.
    pub fn number(self) -> u8
        ensures { result ≡ reason_number self }
    {
        match self {
            FaultReason::NoContext => 2,
            FaultReason::BeyondWidth => 4,
            FaultReason::WriteDenied => 5,
            FaultReason::ReadDenied => 6,
        }
    }
}

/// A denied access: of which device, at which page (the address divided by 4096), of which kind, and why.
#[derive(Clone, Copy, PartialEq, Eq, Debug)]
pub struct Fault {
    // First, as the one number that other replies have: a reply is smaller so, and what one wrote in a piece isn't read
    // back as another's pieces, for which a processor would wait.
    pub page: u64,
    pub source: SourceId,
    pub kind: AccessKind,
    pub reason: FaultReason,
}
