//! Tests of `journal_audit`, through its public call: each byte of a small journal altered to each value (`altered`),
//! and want of memory (`heaps`), over the example of the journals' page (`example`). What one journal can show is shown
//! by those of `tests/journals`, which the program audits.
#![tactic(auto)]

#[cfg(test)]
mod altered;
#[cfg(test)]
mod example;
#[cfg(test)]
mod heaps;
