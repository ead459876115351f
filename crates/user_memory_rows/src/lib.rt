//! How the users' memory stands to the rows of the world: definitions and lemmas alone.
#![tactic(auto)]
