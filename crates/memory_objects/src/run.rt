//! A run of a memory object's pages.

/// So many pages of the memory object of this number, from `first` on, counted from 0.
#[derive(Clone, Copy)]
pub struct PageRun {
    pub number: u64,
    pub first: u64,
    pub count: u64,
}
