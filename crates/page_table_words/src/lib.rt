//! The definitions of page tables in frames of a pool, and lemmas on their rows and entries. `page_table` has the
//! calls, and nothing here runs.
#![tactic(auto)]
