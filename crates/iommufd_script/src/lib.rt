//! A script: its lines, the head that they open a server with, and its steps.
#![tactic(auto)]

mod access_bytes;
mod digits;
mod error;
mod fields;
mod hex_bytes;
mod keyword;
pub mod laws;
mod line;
mod opening;
mod parsing;
mod place;
mod script;
mod span_texts;
mod split;

pub use access_bytes::AccessBytes;
pub use error::ScriptError;
pub use hex_bytes::HexBytes;
pub use line::{HeadLine, Line, Step};
pub use opening::read_script;
pub use parsing::parse_line;
pub use script::{Steps, first_bad_line};
pub use span_texts::SpanTexts;
