//! All memory objects, by number: each with its pages and their pins, and how many areas lie over it. Several are
//! pinned by one call, all of them or none.
#![tactic(auto)]

mod accesses;
mod entry;
mod lookups;
mod objects;
mod pinning;
mod questions;
mod removal;
mod reserving;
mod run;

pub use entry::Entry;
pub use objects::MemoryObjects;
pub use run::PageRun;
