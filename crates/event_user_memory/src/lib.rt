//! The steps of users' memory, and the question that reads it: each with the test that refuses it, and what it does.
#![tactic(auto)]

pub mod user_access;
pub mod user_map;
pub mod user_read;
pub mod user_unmap;
pub mod user_write;
