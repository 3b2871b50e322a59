//! Reads an input and writes the replies to it.
ghost use Rattle.std.specs.Prelude.{◌≡◌, ◌≤◌, [], IfOk, OnOk};
ghost use Rattle.arrayvec.specs.ArrayVec.{array_vec_len};
ghost use Rattle.bptree_commands.specs.Carried.{CarriesOutAll};
ghost use Rattle.bptree_commands.specs.Clipped.{clipped_rest};
ghost use Rattle.bptree_commands.specs.Lines.{PartsAreLines};
ghost use Rattle.bptree_commands.specs.Served.{Serves, RepliesToAll, ReturnsKnown, EndsBy, ReturnsPiece, ReturnsLast, stop_of, error_of};

use crate::error::ServeError;
use crate::lines::{KEPT, Kept, take_lines};
use crate::output::Output;
use crate::reply::{NumberTree, serve_line};
use arrayvec::ArrayVec;
use bptree_stores::node_store_vec::NodeStoreVec;
use bptree_stores::node_stores::NodeStore;
use bptree_tree::BPlusTree;
use std::alloc::{AllocError, Global};
use std::io::{Read, Write};

/// The number of bytes that one read may return.
const CHUNK: usize = 4096;

/// The reason why a session ended before the replies to the whole input were written.
pub enum Stop {
    /// A read failed.
    Reader,
    /// A write or the flush failed, or a write took no byte.
    Writer,
    /// `u64::MAX` reads met no end.
    NoEnd,
    /// An allocation failed.
    OutOfMemory,
}

impl From<ServeError> for Stop {
    ghost from_gives = { λ error stop. stop ≡ stop_of error };

    // Replying writes but does not read, so that an `Io` error comes from the writer.
    fn from(error: ServeError) -> Stop {
        match error {
            ServeError::Io => Stop::Writer,
            ServeError::OutOfMemory => Stop::OutOfMemory,
        }
    }
}

impl Stop {
    // Returns the error that reports this stop.
    fn error(self) -> ServeError
        ensures { result ≡ error_of self }
    {
        match self {
            Stop::OutOfMemory => ServeError::OutOfMemory,
            Stop::Reader | Stop::Writer | Stop::NoEnd => ServeError::Io,
        }
    }
}

// Replies to a piece of the input, and writes the replies.
fn reply_piece<W: Write>(
    tree: &mut NumberTree,
    line: &mut Kept,
    bytes: &[u8],
    out: &mut Output<W>,
) -> Result<(), ServeError>
    requires empty { out.old.held ≡ [] }
    requires kept { array_vec_len line.old ≤ KEPT }
    ensures outcomes { ReturnsPiece out.old out.new tree.old.contents line.old.items bytes.now result }
    ensures empty { OnOk result (out.new.held ≡ []) }
    ensures pairs { CarriesOutAll tree.old tree.new line.old.items bytes.now result }
    ensures line { OnOk result (line.new.items ≡ clipped_rest line.old.items bytes.now) }
{
    match take_lines(tree, line, bytes, out) {
        Ok(()) => out.drain(),
        Err(ServeError::OutOfMemory) => {
            out.drain()?;
            Err(ServeError::OutOfMemory)
        }
        Err(ServeError::Io) => Err(ServeError::Io),
    }
}

// Replies to the last bytes, which no line feed ended, and flushes the writer.
fn reply_last<W: Write>(
    tree: &mut NumberTree,
    line: &[u8],
    out: &mut Output<W>,
) -> Result<(), ServeError>
    requires { out.old.held ≡ [] }
    ensures { ReturnsLast out.old out.new tree.old.contents line.now result }
{
    if line.is_empty() {
        return out.flush();
    }
    serve_line(tree, line, out)?;
    out.drain()?;
    out.flush()
}

fn empty_tree(alloc: Global) -> Result<NumberTree, AllocError>
    ensures { IfOk result (λ tree. tree.contents ≡ []) }
{
    BPlusTree::new(NodeStoreVec::empty(alloc))
}

fn serve_pieces<R: Read, W: Write>(
    alloc: Global,
    reader: &mut R,
    out: &mut Output<W>,
) -> Result<(), Stop>
    requires { out.old.held ≡ [] }
    ensures serves { Serves R.remaining reader.old reader.new out.old out.new result }
    ensures writer { out.new.writer ≡ out.old.writer }
{
    let Ok(mut tree) = empty_tree(alloc) else {
        return Err(Stop::OutOfMemory);
    };
    let mut line = ArrayVec::new();
    let mut input = [0u8; CHUNK];
    'turns: for _turn in 0..u64::MAX {
        let Ok(n) = reader.read(&mut input) else {
            return Err(Stop::Reader);
        };
        if n == 0 {
            reply_last(&mut tree, line.as_slice(), out)?;
            return Ok(());
        }
        reply_piece(&mut tree, &mut line, &input[..n], out)?;
    }
    Err(Stop::NoEnd)
}

/// Reads lines to the end of the input, carries out each on a tree that begins empty, and writes
/// the reply to each.
///
/// The replies to all lines that were read are written before more is read, and the writer is
/// flushed at the end. A write that takes no byte is a fault, and so is an input without an end
/// after `u64::MAX` reads.
///
/// O(log n) a line, O(n) for `clear`, and O(log n + m) for a line with m pairs in its reply.
/// `serve` allocates only what the tree allocates, and keeps at most 48 bytes of a line. It fails
/// if a read, a write, the flush or an allocation fails, and for the two faults above.
pub fn serve<R: Read, W: Write>(
    alloc: Global,
    reader: &mut R,
    writer: &mut W,
) -> Result<(), ServeError>
    ensures ok { RepliesToAll R.remaining reader.old reader.new W.contents writer.old writer.new result }
    ensures known { ReturnsKnown R.remaining reader.old W.contents writer.old writer.new result }
    ensures io { EndsBy R.remaining reader.old reader.new W.contents writer.old writer.new ServeError.Io result }
    ensures out_of_memory { EndsBy R.remaining reader.old reader.new
        W.contents writer.old writer.new ServeError.OutOfMemory result }
{
    let mut out = Output::new(writer);
    let served = serve_pieces(alloc, reader, &mut out);
    let _ = out.into_writer();
    match served {
        Ok(()) => Ok(()),
        Err(stop) => Err(stop.error()),
    }
}

/// The lines of an input are the parts between its line feeds: those that a line feed ends, and
/// what follows the last line feed.
///
/// O(1). It cannot fail.
pub fn parts_are_lines()
    ensures { PartsAreLines }
{}
