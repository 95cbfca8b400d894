//! Streams in memory: an input that comes in pieces and may fail, an output that may be full.

use crate::refusal::Refusal;
use std::alloc::{AllocError, Global};
use std::io;
use std::io::{Read, Write};

/// What a call reads: a text, in pieces, and then its end or an error.
#[derive(Drop)]
pub struct Source {
    text: Vec<u8>,
    /// How many bytes come at a time at the most.
    step: usize,
    /// What comes after the text, in place of its end.
    refusal: Option<Refusal>,
    /// How many bytes were read.
    at: usize,
}

impl Source {
    /// A text, so many bytes at a time. After it comes `refusal`, in place of its end.
    pub fn new(text: Vec<u8>, step: usize, refusal: Option<Refusal>) -> Source {
        Source {
            text,
            step,
            refusal,
            at: 0,
        }
    }

    /// A text that comes whole, and then its end.
    pub fn of(text: Vec<u8>) -> Source {
        Source::new(text, usize::MAX, None)
    }

    /// How many bytes were read.
    pub fn count(&self) -> usize {
        self.at
    }
}

impl Read for Source {
    fn read(&mut self, buf: &mut [u8]) -> io::Result<usize> {
        let left = self.text.split_at(self.at.min(self.text.len())).1;
        if let (true, Some(refusal)) = (left.is_empty(), self.refusal) {
            return Err(refusal.error());
        }
        let count = left.split_at(self.step.min(left.len())).0.read(buf)?;
        self.at = self.at.saturating_add(count);
        Ok(count)
    }
}

/// How much a call writes before its output takes further memory.
const LITTLE: usize = 4096;

/// What a call writes: all of it, or as much as there is room for.
#[derive(Drop)]
pub struct Target {
    text: Vec<u8>,
    room: usize,
    /// Whether memory ran out for what was written.
    lacks_memory: bool,
}

impl Target {
    /// Room for all, or for so many bytes. What is little takes no memory when it is written.
    pub fn new(alloc: Global, room: Option<usize>) -> Result<Target, AllocError> {
        Ok(Target {
            text: Vec::with_capacity(alloc, LITTLE)?,
            room: room.unwrap_or(usize::MAX),
            lacks_memory: false,
        })
    }

    /// What was written.
    pub fn text(&self) -> &[u8] {
        &self.text
    }

    /// Whether memory ran out for what was written. A stream of the system takes none of the program's, so no call ends in this way.
    pub fn lacks_memory(&self) -> bool {
        self.lacks_memory
    }
}

impl Write for Target {
    /// A write for which there is too little room is cut short, and the next one refused.
    fn write(&mut self, buf: &[u8]) -> io::Result<usize> {
        let count = self.room.saturating_sub(self.text.len()).min(buf.len());
        if count < buf.len() && count == 0 {
            return Err(Refusal::Full.error());
        }
        match self.text.extend_from_slice(buf.split_at(count).0) {
            Ok(()) => Ok(count),
            Err(fault) => {
                self.lacks_memory = true;
                Err(fault.into())
            }
        }
    }

    fn flush(&mut self) -> io::Result<()> {
        Ok(())
    }
}
