//! Tests of what stands lowest, through public calls: of `iofd_words` (`words`), `object_table` (`objects`),
//! `frame_memory` (`frames`), `held_pins` (`pins`) and `dirty_bitmap` (`dirty`), and of want of memory in these
//! (`heaps`). Scripts show objects and pages that come and go, and accounts.
#![tactic(auto)]

#[cfg(test)]
mod dirty;
#[cfg(test)]
mod frames;
#[cfg(test)]
mod heaps;
#[cfg(test)]
mod objects;
#[cfg(test)]
mod pins;
#[cfg(test)]
mod words;
