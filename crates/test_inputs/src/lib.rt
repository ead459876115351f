//! Tests of what reads input, through public calls: `ioctl_codec` (`codec`) and `iommufd_script` (`script`). How
//! lines and structures are answered is shown by the scripts of `tests`.
#![tactic(auto)]

#[cfg(test)]
mod codec;
#[cfg(test)]
mod script;
