//! Tests of `area_map` (`areas`) and `iova_ranges` (`ranges`, `ranges_memory`) through public calls, and of want of
//! memory in both (`heaps`). As many areas as may be come and go in a script.
#![tactic(auto)]

#[cfg(test)]
mod areas;
#[cfg(test)]
mod heaps;
#[cfg(test)]
mod ranges;
#[cfg(test)]
mod ranges_memory;
#[cfg(test)]
mod spans;
