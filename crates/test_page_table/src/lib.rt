//! Tests of hardware page tables (`tables`), and of how many the largest area needs (`counts`), through public calls.
//! Scripts show what other spans of pages take. The tests stand here, since the gate proves a crate that has tests once
//! more for them.
#![tactic(auto)]

#[cfg(test)]
mod counts;
#[cfg(test)]
mod tables;
