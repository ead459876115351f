//! The names of causes and of kinds of access, as they are printed.

ghost use Rattle.std.specs.Prelude.{◌≡◌, ◌≤◌, length};
ghost use Rattle.iommufd_cli.specs.Names.{cause_name, kind_name};

use iofd_words::{AccessKind, Cause};

/// The printed name of a cause, 2 to 14 letters.
pub fn name_of_cause(cause: Cause) -> &'static [u8]
    ensures name { result.now ≡ cause_name cause }
    ensures short { length result.now ≤ 14 }
{
    match cause {
        Cause::Number => b"Number",
        Cause::Short => b"Short",
        Cause::Tail => b"Tail",
        Cause::Unsupported => b"Unsupported",
        Cause::Array => b"Array",
        Cause::Frames => b"Frames",
        Cause::Account => b"Account",
        Cause::Absent => b"Absent",
        Cause::Overlap => b"Overlap",
        Cause::Span => b"Span",
        Cause::Id => b"Id",
        Cause::InUse => b"InUse",
        Cause::Bound => b"Bound",
        Cause::Width => b"Width",
        Cause::Narrow => b"Narrow",
        Cause::Rights => b"Rights",
        Cause::Leaving => b"Leaving",
        Cause::NotHeld => b"NotHeld",
        Cause::Sum => b"Sum",
        Cause::Align => b"Align",
        Cause::NoRight => b"NoRight",
        Cause::Reserved => b"Reserved",
        Cause::Full => b"Full",
        Cause::List => b"List",
        Cause::Places => b"Places",
        Cause::Cross => b"Cross",
        Cause::InterruptRange => b"InterruptRange",
        Cause::Unattached => b"Unattached",
        Cause::Pending => b"Pending",
        Cause::Tracking => b"Tracking",
    }
}

/// The printed name of a kind of access, 4 or 5 letters.
pub fn name_of_kind(kind: AccessKind) -> &'static [u8]
    ensures name { result.now ≡ kind_name kind }
    ensures short { length result.now ≤ 5 }
{
    match kind {
        AccessKind::Read => b"read",
        AccessKind::Write => b"write",
    }
}
