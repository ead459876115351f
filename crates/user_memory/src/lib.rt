//! The users' memory: which page is which frame, the memory objects with their pins, and how many pages each user may
//! have pinned. Each pinned page keeps its frame, and is charged to its user once.
#![tactic(auto)]

mod adding;
mod memory;

pub use memory::UserMemory;
pub use memory_objects::PageRun;
