//! The commands of the iommufd interface as bytes: decoding, encoding, and what is written back.
#![tactic(auto)]

mod checks;
mod command;
mod decoding;
mod encoding;
mod entries;
mod events;
mod fields;
mod laws;
mod number;
mod structure;

pub use command::{Command, DecodeError, RangesRequest};
pub use decoding::decode;
pub use encoding::{encode, encode_ranges, encode_reply, encode_reply_to};
pub use events::{Asked, errno_of, ranges_errno};
pub use laws::{round_trip, spellable_commands};
