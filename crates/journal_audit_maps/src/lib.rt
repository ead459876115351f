//! MAP, COPY, UNMAP and an access object's pin: what the definitions say of them, decided over a world of plain
//! vectors.
#![tactic(auto)]

pub mod access_pin;
pub mod accounts;
pub mod asked;
pub mod gaps;
pub mod gathering;
pub mod leaving;
pub mod under;
pub mod unmap;
pub mod waiting;
