//! Tests of records (`records`) and of journals (`journals`), which `journal_audit_bytes` reads and
//! `journal_audit_writing` writes, through public calls: a record tells what it was made of, what is read is written
//! again, and some records have no spelling. Which bytes are torn is shown by the journals of `tests/journals`.
#![tactic(auto)]

#[cfg(test)]
mod heads;
#[cfg(test)]
mod journals;
#[cfg(test)]
mod records;
