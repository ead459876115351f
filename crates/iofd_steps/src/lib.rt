//! What a step does: which replies are lawful to an event that nothing refuses, the world after it, runs of records,
//! and the answers to questions. They are definitions (`specs`); nothing here runs.
#![tactic(auto)]
