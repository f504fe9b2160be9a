//! A reader that gives a text in pieces, and may fail. Its contract does not describe its bytes.

use std::io;
use std::io::{ErrorKind, Read};

/// What a reader does at a call.
#[derive(Clone, Copy, Debug, PartialEq, Eq)]
pub enum Turn {
    /// It gives at most this many bytes.
    Pass(usize),
    /// It is interrupted.
    Interrupt,
    /// It has nothing yet.
    Wait,
    /// It waited too long.
    TimeOut,
    /// It fails.
    Fail,
}

/// A reader of a text that takes these turns, again and again.
#[derive(Drop)]
pub struct Pieces<'a> {
    rest: &'a [u8],
    turns: &'a [Turn],
    turn: usize,
}

impl<'a> Pieces<'a> {
    pub fn new(rest: &'a [u8], turns: &'a [Turn]) -> Pieces<'a> {
        Pieces {
            rest,
            turns,
            turn: 0,
        }
    }

    fn next_turn(&mut self) -> Turn {
        if self.turn >= self.turns.len() {
            self.turn = 0;
        }
        match self.turns.get(self.turn) {
            Some(turn) => {
                self.turn += 1;
                *turn
            }
            None => Turn::Fail,
        }
    }
}

impl Read for Pieces<'_> {
    fn read(&mut self, buf: &mut [u8]) -> io::Result<usize> {
        let most = match self.next_turn() {
            Turn::Pass(most) => most,
            Turn::Interrupt => return Err(io::Error::from(ErrorKind::Interrupted)),
            Turn::Wait => return Err(io::Error::from(ErrorKind::WouldBlock)),
            Turn::TimeOut => return Err(io::Error::from(ErrorKind::TimedOut)),
            Turn::Fail => return Err(io::Error::from(ErrorKind::Other)),
        };
        let n = most.min(self.rest.len()).min(buf.len());
        buf[..n].copy_from_slice(&self.rest[..n]);
        self.rest = &self.rest[n..];
        Ok(n)
    }
}
