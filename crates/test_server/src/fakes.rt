//! Readers and writers of the tests, which fail where they are told to.

use std::io::{self, ErrorKind, Read, Write};

/// Where an end fails: it gives or takes at most so many bytes a call, and the call of this number, counted from 0,
/// fails with this kind of error.
pub(crate) type Faults = (usize, usize, ErrorKind);

// Gives the bytes of a text.
#[derive(Clone, Copy)]
pub(crate) struct Input<'a> {
    rest: &'a [u8],
    calls: usize,
    faults: Faults,
}

impl<'a> Input<'a> {
    pub(crate) fn new(text: &'a str, faults: Faults) -> Input<'a> {
        Input {
            rest: text.as_bytes(),
            calls: 0,
            faults,
        }
    }
}

impl<'a> Read for Input<'a> {
    fn read(&mut self, buf: &mut [u8]) -> io::Result<usize> {
        let call = self.calls;
        let (most, bad, kind) = self.faults;
        self.calls = call.saturating_add(1);
        if call == bad {
            return Err(kind.into());
        }
        let count = buf.len().min(most).min(self.rest.len());
        buf[..count].copy_from_slice(&self.rest[..count]);
        self.rest = &self.rest[count..];
        Ok(count)
    }
}

// Compares the bytes that it is given with those that are wanted.
#[derive(Clone, Copy)]
pub(crate) struct Output<'a> {
    rest: &'a [u8],
    agrees: bool,
    calls: usize,
    faults: Faults,
}

impl<'a> Output<'a> {
    pub(crate) fn new(wanted: &'a [u8], faults: Faults) -> Output<'a> {
        Output {
            rest: wanted,
            agrees: true,
            calls: 0,
            faults,
        }
    }

    // How often it was called, if it was given all that is wanted and nothing else.
    pub(crate) fn calls(&self) -> Option<usize> {
        if self.agrees && self.rest.is_empty() {
            Some(self.calls)
        } else {
            None
        }
    }
}

impl<'a> Write for Output<'a> {
    fn write(&mut self, buf: &[u8]) -> io::Result<usize> {
        let call = self.calls;
        let (most, bad, kind) = self.faults;
        self.calls = call.saturating_add(1);
        if call == bad {
            return Err(kind.into());
        }
        let count = buf.len().min(most);
        match self.rest.strip_prefix(&buf[..count]) {
            Some(rest) => self.rest = rest,
            None => self.agrees = false,
        }
        Ok(count)
    }

    fn flush(&mut self) -> io::Result<()> {
        Ok(())
    }
}
