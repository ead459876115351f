//! The server for threads as a static library: thin exports, each of which calls a handle and says what it says. The
//! header is `include/defnulk_iommufd.h`.
#![tactic(auto)]

mod callers;
mod configuring;
mod events;
mod handle;
mod limits;
mod opening;
mod outcome;
mod ports;
mod reserving;
mod spans;
mod status;
mod translated;

pub use configuring::DeviceRow;
pub use handle::Handle;
pub use outcome::Outcome;
pub use reserving::ReservedRow;
pub use spans::SpanRow;
pub use translated::TranslationRow;
