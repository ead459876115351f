//! The orders of refusals: for each event, the causes for which it is refused, each with the condition under which it
//! holds, in the order in which they are asked. The first that holds is the answer. They are definitions
//! (`specs/Checks.antt`); nothing here runs.
#![tactic(auto)]
