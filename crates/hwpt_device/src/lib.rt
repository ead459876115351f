//! The events of a device and of what translates for it: a device is bound to a file and unbound, hardware page tables
//! come, and devices are attached to them, flushed and detached. Each with the test that refuses it, and what it does.
#![tactic(auto)]

pub mod attach;
mod attachments;
pub mod bind;
pub mod detach;
mod filling;
pub mod flush;
pub mod hwpt_alloc;
mod making;
mod narrow;
mod pins;
pub mod unbind;
mod waiting;
