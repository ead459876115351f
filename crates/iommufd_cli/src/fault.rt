//! Why a program of the command line fails.

use std::io;
use thiserror::Error;

/// Why there is no whole input.
#[derive(Debug, Drop, Error)]
pub enum InputFault {
    /// It has more than 2^24 bytes.
    #[error("the input has more than 16777216 bytes")]
    TooLong,
    /// A read failed.
    #[error("can't read the input: {0}")]
    Read(io::Error),
}

/// Why reading or writing failed.
#[derive(Debug, Drop, Error)]
pub enum CliFault {
    /// The input couldn't be read, or is too long.
    #[error("{0}")]
    Input(InputFault),
    /// The output couldn't be written.
    #[error("can't write the output: {0}")]
    Output(io::Error),
}
