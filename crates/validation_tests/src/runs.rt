//! A run of the program `check` over a reader and writers that fail.
use crate::schemas::checks;
use check_app::program;
use std::alloc::{AllocError, Global};
use std::io::{self, Read, Write};

/// Gives a text, one byte at a time, and then fails like this, or ends.
#[derive(Clone, Copy)]
pub struct Source {
    pub text: &'static [u8],
    pub failure: Option<io::ErrorKind>,
}

impl Read for Source {
    fn read(&mut self, buf: &mut [u8]) -> io::Result<usize> {
        let Some((first, rest)) = self.text.split_first() else {
            return match self.failure {
                Some(kind) => Err(io::Error::from(kind)),
                None => Ok(0),
            };
        };
        match buf.first_mut() {
            Some(byte) => {
                *byte = *first;
                self.text = rest;
                Ok(1)
            }
            None => Ok(0),
        }
    }
}

/// Takes `left` bytes, one at a time, and then fails, also when it is flushed.
#[derive(Drop)]
pub struct Sink {
    left: usize,
    pub taken: Vec<u8>,
}

impl Sink {
    fn new(alloc: Global, left: usize) -> Result<Sink, AllocError> {
        let taken = Vec::with_capacity(alloc, 400)?;
        Ok(Sink { left, taken })
    }
}

impl Write for Sink {
    fn write(&mut self, buf: &[u8]) -> io::Result<usize> {
        let (Some(first), true) = (buf.first(), self.left > 0) else {
            return Err(io::Error::from(io::ErrorKind::StorageFull));
        };
        self.taken.push(*first)?;
        self.left -= 1;
        Ok(1)
    }

    fn flush(&mut self) -> io::Result<()> {
        if self.left == 0 {
            return Err(io::Error::from(io::ErrorKind::StorageFull));
        }
        Ok(())
    }
}

/// A run: its only argument, its input, and how many bytes may be written to its output and to its faults.
#[derive(Clone, Copy)]
pub struct Run {
    pub word: &'static str,
    pub input: Source,
    pub output: usize,
    pub faults: usize,
}

/// How a run ended: its exit status, and what it wrote.
#[derive(Drop)]
pub struct Ended {
    status: u8,
    output: Sink,
    faults: Sink,
}

impl Ended {
    /// Whether it ended so.
    pub fn is(&self, status: u8, output: &str, faults: &str) -> bool {
        self.status == status
            && self.output.taken.as_slice() == output.as_bytes()
            && self.faults.taken.as_slice() == faults.as_bytes()
    }
}

/// How the run ends.
pub fn outcome(alloc: Global, run: &Run) -> Result<Ended, AllocError> {
    let words = [String::from_str(alloc, run.word)?];
    let mut input = run.input;
    let mut output = Sink::new(alloc, run.output)?;
    let mut faults = Sink::new(alloc, run.faults)?;
    let status = program::run(
        alloc,
        checks(),
        &words,
        &mut input,
        &mut output,
        &mut faults,
    );
    Ok(Ended {
        status,
        output,
        faults,
    })
}
