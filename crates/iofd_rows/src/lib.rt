//! Lemmas on the rows of the world, whatever made them: pages and pins of memory objects, areas and page tables, debts
//! and ids. `specs/` says what laws claim of them. Nothing here runs.
#![tactic(auto)]
