//! Readers and writers for the tests: they take or return a few bytes a call, have no end, or fail.
#![tactic(auto)]

use std::alloc::Global;
use std::io::{self, ErrorKind, Read, Write};

/// How many bytes a read gives at most.
pub const SIZES: [usize; 5] = [1, 2, 3, 7, 65_536];

/// What is given to one who asks again after the end.
const LATE: &[u8] = b"\n\nPackage: late\nVersion: 1\nArchitecture: all\n";

/// A reader that gives a file in pieces of a size, and after its end other bytes.
#[derive(Drop)]
pub struct Pieces<'a> {
    /// What is left of the file.
    pub rest: &'a [u8],
    size: usize,
    /// The number of the one call that fails, from 1; 0 where none does.
    failing: u64,
    /// How many calls there were.
    pub calls: u64,
    /// How many bytes the longest buffer had.
    pub longest: usize,
    has_ended: bool,
}

impl<'a> Pieces<'a> {
    /// A reader of a file, of which the call with a number fails, counted from 1; none if it is 0.
    pub fn new(file: &'a [u8], size: usize, failing: u64) -> Pieces<'a> {
        Pieces {
            rest: file,
            size,
            failing,
            calls: 0,
            longest: 0,
            has_ended: false,
        }
    }
}

impl Read for Pieces<'_> {
    fn read(&mut self, buffer: &mut [u8]) -> io::Result<usize> {
        self.calls = self.calls.saturating_add(1);
        self.longest = self.longest.max(buffer.len());
        if self.calls == self.failing {
            return Err(io::Error::from(ErrorKind::Interrupted));
        }
        if self.rest.is_empty() && !self.has_ended {
            self.has_ended = true;
            self.rest = LATE;
            return Ok(0);
        }
        let most = buffer.len().min(self.size);
        self.rest.read(&mut buffer[..most])
    }
}

/// A reader that gives a few bytes, and then one byte for ever.
#[derive(Drop)]
pub struct Endless<'a> {
    front: &'a [u8],
    byte: u8,
    /// How many bytes it gave.
    pub given: u64,
}

impl<'a> Endless<'a> {
    /// A reader of some bytes and then of one.
    pub fn new(front: &'a [u8], byte: u8) -> Endless<'a> {
        Endless {
            front,
            byte,
            given: 0,
        }
    }
}

impl Read for Endless<'_> {
    fn read(&mut self, buffer: &mut [u8]) -> io::Result<usize> {
        let mut count = buffer.len();
        if self.front.is_empty() {
            buffer.fill(self.byte);
        } else {
            count = self.front.read(buffer)?;
        }
        self.given = self.given.saturating_add(count as u64);
        Ok(count)
    }
}

/// What a writer answers once its good calls are used up.
#[derive(Clone, Copy)]
pub enum Then {
    /// Each call fails.
    Fails,
    /// Each call takes no byte.
    TakesNone,
}

/// A writer that takes at most so many bytes a call, for so many calls.
#[derive(Drop)]
pub struct Slow {
    /// What it took.
    pub held: Vec<u8>,
    most: usize,
    calls: u64,
    then: Then,
    /// How many calls took nothing.
    pub failures: u64,
}

impl Slow {
    /// A writer that takes so many bytes a call, and after so many calls does this.
    pub fn new(alloc: Global, most: usize, calls: u64, then: Then) -> Slow {
        Slow {
            held: Vec::new(alloc),
            most,
            calls,
            then,
            failures: 0,
        }
    }
}

impl Write for Slow {
    fn write(&mut self, bytes: &[u8]) -> io::Result<usize> {
        if self.calls == 0 {
            self.failures = self.failures.saturating_add(1);
            return match self.then {
                Then::Fails => Err(io::Error::from(ErrorKind::Interrupted)),
                Then::TakesNone => Ok(0),
            };
        }
        self.calls -= 1;
        let taken = bytes.len().min(self.most);
        self.held.extend_from_slice(&bytes[..taken])?;
        Ok(taken)
    }

    fn flush(&mut self) -> io::Result<()> {
        Ok(())
    }
}
