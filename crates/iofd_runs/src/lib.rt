//! What each step of a run keeps, and what it says that nothing refuses an event: the facts on which a server's proof
//! and the laws stand. Nothing here runs.
#![tactic(auto)]
