//! Page tables that come: what the definitions say of HWPT_ALLOC and of attachments, decided over a world of plain
//! vectors.
#![tactic(auto)]

pub mod answers;
pub mod attach;
pub mod hwpt_alloc;
pub mod listing;
pub mod narrowing;
pub mod page_sets;
pub mod pinning;
pub mod rows;
pub mod unusable;
pub mod widths;
