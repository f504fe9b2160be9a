//! A reader and a writer that follow a list of turns. Their contracts do not describe their bytes.

use std::io;
use std::io::{ErrorKind, Read, Write};

/// What a stream does at a call.
#[derive(Clone, Copy, Debug, PartialEq, Eq)]
pub enum Turn {
    /// Gives or takes at most this many bytes.
    Pass(usize),
    Fail(ErrorKind),
}

/// The turns of a stream, one a call, and the turn that it takes at each call after them.
#[derive(Clone, Copy)]
pub struct Turns<'a> {
    pub first: &'a [Turn],
    pub then: Turn,
}

impl Turns<'_> {
    /// At most how many bytes the next call passes, or its error.
    fn next_most(&mut self) -> io::Result<usize> {
        let turn = match self.first.first() {
            Some(turn) => *turn,
            None => self.then,
        };
        if !self.first.is_empty() {
            self.first = &self.first[1..];
        }
        match turn {
            Turn::Pass(most) => Ok(most),
            Turn::Fail(kind) => Err(io::Error::from(kind)),
        }
    }
}

/// Gives `rest`, and then `again` repeatedly. If `again` is empty, the input ends.
#[derive(Drop)]
pub struct ScriptedReader<'a> {
    pub rest: &'a [u8],
    pub again: &'a [u8],
    pub turns: Turns<'a>,
}

impl Read for ScriptedReader<'_> {
    fn read(&mut self, buf: &mut [u8]) -> io::Result<usize> {
        let most = self.turns.next_most()?;
        if self.rest.is_empty() {
            self.rest = self.again;
        }
        let n = most.min(buf.len()).min(self.rest.len());
        buf[..n].copy_from_slice(&self.rest[..n]);
        self.rest = &self.rest[n..];
        Ok(n)
    }
}

/// Keeps what it takes.
#[derive(Drop)]
pub struct ScriptedWriter<'a> {
    pub written: Vec<u8>,
    pub turns: Turns<'a>,
}

impl Write for ScriptedWriter<'_> {
    fn write(&mut self, buf: &[u8]) -> io::Result<usize> {
        let n = self.turns.next_most()?.min(buf.len());
        self.written.extend_from_slice(&buf[..n])?;
        Ok(n)
    }

    fn flush(&mut self) -> io::Result<()> {
        Ok(())
    }
}
