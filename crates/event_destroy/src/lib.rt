//! DESTROY and Close, by which objects go by number or with their file: each with the test that refuses it, and what it
//! does.
#![tactic(auto)]

pub mod close;
pub mod destroy;
