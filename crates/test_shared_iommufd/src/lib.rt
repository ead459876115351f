//! Tests of the server for threads through its calls that wait: scripts worked by hand, each step of which is a call of
//! a pass and is told by one line, and whose ioctls `tests/growth` refuses growths; a device's port beside another
//! pass; passes in threads of their own; and how long an operation takes. Calls that don't wait are tested in C
//! (`tests/c`), over more scripts, and so is want of memory.
#![tactic(auto)]

#[cfg(test)]
mod journals;
#[cfg(test)]
mod lines;
#[cfg(test)]
mod mapped;
#[cfg(test)]
mod opened;
#[cfg(test)]
mod ports;
#[cfg(test)]
mod rows;
#[cfg(test)]
mod scripts;
#[cfg(test)]
mod served;
#[cfg(test)]
mod steps;
#[cfg(test)]
mod test_server;
#[cfg(test)]
mod threads;
#[cfg(test)]
mod times;
#[cfg(test)]
mod work;
