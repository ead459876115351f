//! The program: it does what its words ask for, with its input and output.
#![tactic(auto)]

use iommufd_cli::{Choice, CliFault, Served, audit, choose, serve};
use std::alloc::Global;
use std::io::{self, BufReader, Read, Write};
use std::process::ExitCode;
use std::{env, mem};

fn main(rt: HostRuntime) -> io::Result<ExitCode> {
    let alloc = rt.alloc();
    let words: Vec<String> = env::args(&rt)?.collect(alloc)?;
    let choice = match choose(alloc, words.as_slice()) {
        Ok(choice) => choice,
        Err(error) => {
            eprint!(rt; "{error}")?;
            return Ok(ExitCode::FAILURE);
        }
    };
    let mut reader = BufReader::new(alloc, rt.reader())?;
    // A session hands its lines on in pages, and an audit says one line.
    match carried_out(alloc, choice, &mut reader, &mut io::writer(&rt)) {
        Ok(status) => Ok(ExitCode::from(status)),
        Err(fault) => {
            eprintln!(rt; "error: {fault}")?;
            Ok(ExitCode::FAILURE)
        }
    }
}

// What was chosen is done, and all its lines are handed on.
fn carried_out<R: Read, W: Write>(
    alloc: Global,
    choice: Choice,
    reader: &mut R,
    writer: &mut W,
) -> Result<u8, CliFault> {
    let mut served = Served::new();
    let status = match choice {
        Choice::Session { journal } => serve(alloc, reader, writer, journal, &mut served)?,
        Choice::Audit => audit(alloc, reader, writer)?,
    };
    writer.flush().map_err(CliFault::Output)?;
    // The program ends, and its memory with it.
    mem::forget(served);
    Ok(status)
}
