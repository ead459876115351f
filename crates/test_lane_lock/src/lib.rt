//! Tests of the lock through its public calls, over a kept value of their own: a list of numbers with little room.
#![tactic(auto)]

#[cfg(test)]
mod crowd;
#[cfg(test)]
mod lanes;
#[cfg(test)]
mod numbers;
#[cfg(test)]
mod one_thread;
#[cfg(test)]
mod plain;
#[cfg(test)]
mod threads;
#[cfg(test)]
mod times;
