//! Why a handle isn't opened.

use shared_iommufd::ConfigError;

/// Why no server is opened.
#[derive(Clone, Copy)]
pub enum OpenError {
    /// The handle is open.
    Open,
    /// The lanes or the cache are outside their limits, or there was no memory for the server.
    Server(ConfigError),
}

/// Why another handle of a server isn't opened.
#[derive(Clone, Copy)]
pub enum GiveError {
    /// The other handle is open.
    Open,
    /// This one is no caller's.
    NoCaller,
    /// This caller has no pass to give, or no device's key.
    NoneLeft,
    /// There was no memory for the other handle.
    Memory,
}
