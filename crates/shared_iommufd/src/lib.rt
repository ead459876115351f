//! The server for threads: the core behind a lock, whose history is what the server was opened with and then all
//! records. Each caller has a pass. A changing call is one record of that history, and a look answers of a history
//! that its pass has then seen.
#![tactic(auto)]

mod accessing;
mod call;
mod close;
mod error;
mod ioctl;
mod ioctl_answer;
mod journal;
mod key_list;
mod limits;
mod look;
mod notices;
mod of_port;
mod pieces;
mod port;
mod port_key;
mod port_read;
mod port_translate;
mod port_turns;
mod port_write;
mod server;

pub use error::{CloseError, ConfigError, PortCause, PortError};
pub use guarded_core::{Entry, KeptCore, TryError};
pub use ioctl_answer::IoctlAnswer;
pub use iommufd_core::{Core, Stamp};
pub use journal_audit_writing::JournalError;
pub use lane_lock::{Busy, NotNow};
pub use of_port::{is_event_of_port, is_query_of_port};
pub use port::Port;
pub use port_key::PortKey;
pub use server::{Pass, Server};
