//! Want of memory in what takes frames of a pool, through public calls: of users' memory (`memory_calls`), of pins by
//! accesses (`access_calls`, of users' memory `run_calls`, of all areas under a span `span_calls`) and of the page
//! tables of all files (`table_calls`), each in a heap (`heaps`). What their calls answer is shown by scripts, but for
//! pins by accesses.
#![tactic(auto)]

#[cfg(test)]
mod access_calls;
#[cfg(test)]
mod heaps;
#[cfg(test)]
mod memory_calls;
#[cfg(test)]
mod run_calls;
#[cfg(test)]
mod span_calls;
#[cfg(test)]
mod table_calls;
