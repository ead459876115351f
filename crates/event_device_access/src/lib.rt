//! Devices' reads and writes: the test that refuses an access, what may come of it, what a write does, and what a walk
//! of a device's page table finds.
#![tactic(auto)]

pub mod access;
pub mod device_read;
pub mod device_write;
pub mod walk;
