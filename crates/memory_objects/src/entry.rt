//! A memory object by its number.

/// A memory object: its number, how many areas lie over it, and its pages.
#[derive(Drop)]
pub struct Entry<P> {
    /// The position of the MAP record that made it.
    pub number: u64,
    pub areas: u64,
    pub pages: P,
}
