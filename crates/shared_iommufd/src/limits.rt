//! The limits of lanes and caches.

ghost use Rattle.std.specs.Prelude.{◌≡◌};
ghost use Rattle.shared_iommufd.specs.Limits.{first_outside};

use crate::error::ConfigError;

// The first of the two numbers that is outside its limits.
pub(crate) fn first_outside(lanes: u16, cache: u16) -> Option<ConfigError>
    ensures { result ≡ first_outside lanes cache }
{
    if lanes < 1 || lanes > 64 {
        return Some(ConfigError::Lanes);
    }
    if cache < 1 || cache > 4096 {
        return Some(ConfigError::Cache);
    }
    None
}
