//! What an auditor says.

/// What the bytes of a journal are. Records and bytes are counted from 0.
#[derive(Clone, Copy, PartialEq, Eq, Debug)]
pub enum Verdict {
    /// A journal of so many records, which are a run.
    Run { records: usize },
    /// The record at this index is the first that no server may have made after those before it.
    NotRun { index: usize },
    /// At this offset no record begins, or at 0 no head; the records before it are a run.
    Torn { offset: usize },
}
