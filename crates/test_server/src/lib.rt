//! Tests of the server through public calls: of the core, what no script asks (`questions`, by `steps`), of sessions
//! over readers and writers that fail (`session`, `lines`), and of journals (`journal`).
#![tactic(auto)]

#[cfg(test)]
mod fakes;
#[cfg(test)]
mod journal;
#[cfg(test)]
mod lines;
#[cfg(test)]
mod questions;
#[cfg(test)]
mod session;
#[cfg(test)]
mod steps;
