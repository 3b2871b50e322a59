//! A buffer for the bytes on their way to a writer.
ghost use Rattle.std.specs.Prelude.{◌≡◌, ◌≤◌, [], length, OnOk, IfErr};
ghost use Rattle.std.specs.Io.KnownBytes.{Appends};
ghost use Rattle.bptree_commands.specs.Sent.{BreaksOff, SendsOrFails, Drains, Flushes};

use crate::error::ServeError;
use arrayvec::ArrayVec;
use std::io::Write;
use std::marker::Model;

/// The number of bytes of replies that can be held before they are written.
pub const HELD: usize = 4096;

/// A writer, and the bytes of replies that are not written to it yet.
#[derive(Drop)]
pub struct Output<'a, W: Write> {
    writer: &'a mut W,
    held: ArrayVec<u8, { HELD }>,
}

impl<'a, W: Write> Model for Output<'a, W> {
    ghost use Rattle.bptree_commands.specs.Sent.{Sent};

    ghost Value = { Sent };

    ghost view = { λ out. record { writer = out.writer.ghost_name; written = W.contents out.writer.now; held = out.held.items } };
}

impl<'a, W: Write> Output<'a, W> {
    /// Makes an output to a writer. Nothing is held yet.
    pub fn new(writer: &'a mut W) -> Output<'a, W>
        ensures writer { result.writer ≡ writer.entry.ghost_name }
        ensures written { result.written ≡ W.contents writer.old }
        ensures held { result.held ≡ [] }
    {
        Output {
            writer,
            held: ArrayVec::new(),
        }
    }

    /// Returns the writer, and drops what is held.
    pub fn into_writer(self) -> &'a mut W
        ensures writer { result.ghost_name ≡ self.entry.writer }
        ensures written { W.contents result.now ≡ self.entry.written }
    {
        let Output { writer, held: _ } = self;
        writer
    }

    /// Holds the bytes. It first writes what was held before, if there is no room for both.
    pub fn send(&mut self, bytes: &[u8]) -> Result<(), ServeError>
        requires { length bytes.now ≤ HELD }
        ensures { SendsOrFails self.old self.new bytes.now result }
    {
        if self.held.remaining_capacity() < bytes.len() {
            self.drain()?;
        }
        let _ = self.held.try_extend_from_slice(bytes);
        Ok(())
    }

    /// Writes all held bytes.
    pub fn drain(&mut self) -> Result<(), ServeError>
        ensures { Drains self.old self.new result }
    {
        write_whole(self.writer, self.held.as_slice())?;
        self.held.clear();
        Ok(())
    }

    /// Flushes the writer. The held bytes stay held.
    pub fn flush(&mut self) -> Result<(), ServeError>
        ensures { Flushes self.old self.new result }
    {
        match self.writer.flush() {
            Ok(()) => Ok(()),
            Err(_) => Err(ServeError::Io),
        }
    }
}

// Writes all bytes. A write that takes no byte is a fault.
fn write_whole<W: Write>(writer: &mut W, bytes: &[u8]) -> Result<(), ServeError>
    ensures ok { OnOk result (Appends (W.contents writer.old) (W.contents writer.new) bytes.now) }
    ensures err { IfErr result (BreaksOff W.contents writer.old writer.new bytes.now) }
{
    let mut rest = bytes;
    while !rest.is_empty() {
        match writer.write(rest) {
            Ok(0) => return Err(ServeError::Io),
            Ok(n) => rest = &rest[n..],
            Err(_) => return Err(ServeError::Io),
        }
    }
    Ok(())
}
