//! What the definitions say of each event, decided over a world of plain vectors.
#![tactic(auto)]

pub mod access_attach;
pub mod access_create;
pub mod access_detach;
pub mod access_unpin;
pub mod access_write;
pub mod allow_iovas;
pub mod answers;
pub mod close;
pub mod destroy;
pub mod detach;
pub mod device_write;
pub mod devices;
pub mod dirty_clear;
pub mod dirty_enable;
pub mod events;
pub mod gone;
pub mod ioas_alloc;
pub mod outcomes;
pub mod usable;
pub mod user_memory;
