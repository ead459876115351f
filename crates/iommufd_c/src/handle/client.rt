//! What a handle stands for.

use super::caller::Caller;
use super::device::Device;

/// What an open handle stands for.
#[derive(Drop)]
pub enum Client {
    /// A caller of a server.
    Caller(Caller),
    /// A device's port.
    Device(Device),
    /// Nothing yet: the room of one that is to come.
    Vacant,
}
