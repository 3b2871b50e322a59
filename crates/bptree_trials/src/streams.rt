//! The line server, over streams in memory that are read and written in small parts, and that fail.
ghost use Rattle.std.specs.Prelude.{◌<◌, Some};

use crate::record::Record;
use crate::subject::{Subject, no_call};
use crate::words::Words;
use bptree_commands::error::ServeError;
use bptree_commands::session::serve;
use std::alloc::{AllocError, Global};
use std::io;
use std::io::{ErrorKind, Read, Write};

// A reader that returns at most `step` bytes a read, and fails after `good` reads.
#[derive(Drop)]
struct Source<'a> {
    left: &'a [u8],
    step: usize,
    good: usize,
    ghost some: { 0 < step },
}

impl Read for Source<'_> {
    ghost remaining = { λ s. Some s.left.now };

    fn read(&mut self, buf: &mut [u8]) -> io::Result<usize> {
        if self.good == 0 {
            return Err(io::Error::from(ErrorKind::Other));
        }
        self.good -= 1;
        let n = self.step.min(buf.len()).min(self.left.len());
        let (now, rest) = self.left.split_at(n);
        buf[..n].copy_from_slice(now);
        self.left = rest;
        Ok(n)
    }
}

// A writer that takes at most `step` bytes a write, and fails after `room` bytes in all.
#[derive(Drop)]
struct Sink {
    bytes: Vec<u8>,
    step: usize,
    room: usize,
    can_flush: bool,
}

impl Write for Sink {
    ghost contents = { λ s. Some s.bytes.items };

    fn write(&mut self, buf: &[u8]) -> io::Result<usize> {
        if self.room == 0 {
            return Err(io::Error::from(ErrorKind::Other));
        }
        let n = self.step.min(buf.len()).min(self.room);
        self.bytes.extend_from_slice(&buf[..n])?;
        self.room -= n;
        Ok(n)
    }

    fn flush(&mut self) -> io::Result<()> {
        if self.can_flush {
            Ok(())
        } else {
            Err(io::Error::from(ErrorKind::Other))
        }
    }
}

/// An input for the line server.
#[derive(Drop)]
pub struct Input {
    bytes: Vec<u8>,
}

// Adds the first bytes of a number, the least one first. Returns whether no allocation failed.
fn add_bytes(input: &mut Vec<u8>, number: u64, many: usize) -> bool {
    let bytes = number.to_le_bytes();
    input.extend_from_slice(&bytes[..many.min(8)]).is_ok()
}

// Adds up to 16 bytes.
fn extend(input: &mut Vec<u8>, record: &Record) -> bool {
    let many = record.a.min(16) as usize;
    add_bytes(input, record.b, many) && add_bytes(input, record.c, many.saturating_sub(8))
}

// Adds the bytes that were written.
fn add_written(sink: &Sink, words: &mut Words) {
    words.add(sink.bytes.len() as u64);
    for byte in &sink.bytes {
        words.add(*byte as u64);
    }
}

// Serves the input, and reports how serving ended and what was written. The record has the bytes of
// each read, the number of reads, the bytes of each write, and the number of bytes in all. The
// lowest bit of the bytes of each write says whether a flush fails.
fn outcome(alloc: Global, input: &[u8], record: &Record, words: &mut Words) -> bool {
    let mut source = Source {
        left: input,
        step: (record.a as usize).max(1),
        good: record.b as usize,
    };
    let mut sink = Sink {
        bytes: Vec::new(alloc),
        step: (record.c >> 1) as usize,
        room: record.d as usize,
        can_flush: record.c & 1 == 0,
    };
    let served = serve(alloc, &mut source, &mut sink);
    words.add(match served {
        Ok(()) => 0,
        Err(ServeError::Io) => 1,
        Err(ServeError::OutOfMemory) => 2,
    });
    add_written(&sink, words);
    true
}

impl Subject for Input {
    fn begin(alloc: Global) -> Result<Self, AllocError> {
        Ok(Input {
            bytes: Vec::new(alloc),
        })
    }

    fn call(&mut self, alloc: Global, record: &Record, words: &mut Words) -> bool {
        match record.call {
            0 => extend(&mut self.bytes, record),
            1 => outcome(alloc, &self.bytes, record, words),
            2 => {
                self.bytes.clear();
                true
            }
            _ => no_call(words),
        }
    }
}
