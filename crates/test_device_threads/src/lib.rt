//! Tests of devices at work: two in threads of their own, that wait for each other; eight with many jobs while a ninth
//! thread maps, unmaps and flushes, whose journals are audited; and runs, which `tests/growth` makes with growths
//! refused. (One that never flushes is a script of tests/ports.)
#![tactic(auto)]

#[cfg(test)]
mod at_once;
#[cfg(test)]
mod checks;
#[cfg(test)]
mod gate;
#[cfg(test)]
mod meeting;
#[cfg(test)]
mod prepared;
#[cfg(test)]
mod refused_growths;
#[cfg(test)]
mod site;
#[cfg(test)]
mod tasks;
#[cfg(test)]
mod test_site;
