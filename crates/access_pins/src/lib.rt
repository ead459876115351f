//! The events of an access object, which is made, attached to an address space and detached, and by which pages are
//! pinned, let go of and written: each with the test that refuses it, and what it does. And the questions that are
//! asked of one: what it reads, which frame it reaches, and which of its pins are in the way of an UNMAP.
#![tactic(auto)]

mod account;
mod asked;
pub mod attach;
pub mod create;
pub mod detach;
mod held_access;
pub mod notices;
pub mod pin;
pub mod read;
pub mod unpin;
pub mod write;

pub use held_access::frame_of;
