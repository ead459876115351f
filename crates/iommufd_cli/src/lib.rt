//! The command-line program: what its words ask for, and a session, from a script's bytes to its reply lines.
#![tactic(auto)]

mod audit_line;
mod byte_digits;
mod command_line;
mod digits;
mod fault;
mod input;
mod journal;
mod line;
mod names;
mod output;
mod page;
mod replies;
mod run;
mod steps;

pub use audit_line::audit;
pub use command_line::{Choice, choose};
pub use fault::{CliFault, InputFault};
pub use line::Line;
pub use replies::{bad_line, no_memory_line, notices_line, ranges_line};
pub use run::{Served, serve, session};
pub use steps::answer_step;
