//! The translations that a device's port keeps: pages, the most recently used first, and how many turns (attachments,
//! detachments, flushes) the device had had when they were last compared with the server. Whether they are good is the
//! port's to know; here they are only kept, compared and put in their order.
#![tactic(auto)]

mod cache;

pub use cache::{Found, PortCache, with_right};
