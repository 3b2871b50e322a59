//! Splits the pieces of the input into lines.
ghost use Rattle.std.specs.Prelude.{◌≡◌, ◌≤◌, ◌==◌, [], ◌++◌, take, OnOk};
ghost use Rattle.std.specs.List.{position};
ghost use Rattle.arrayvec.specs.ArrayVec.{array_vec_len};
ghost use Rattle.bptree_commands.specs.ReplyLists.{outcome, pairs_after_command};
ghost use Rattle.bptree_commands.specs.Carried.{CarriesOutAll};
ghost use Rattle.bptree_commands.specs.Clipped.{clipped_rest};
ghost use Rattle.bptree_commands.specs.Sent.{Replies, RepliesTo};

use crate::error::ServeError;
use crate::output::Output;
use crate::reply::{NumberTree, serve_line};
use arrayvec::ArrayVec;
use bptree_protocol::LONGEST_LINE;
use std::io::Write;

/// The number of bytes of a line that are kept: one more than the longest request has.
pub const KEPT: usize = LONGEST_LINE + 1;

/// The kept bytes of a line that continues in the next piece of the input.
pub type Kept = ArrayVec<u8, { KEPT }>;

// Returns the index of the first line feed.
fn line_end(bytes: &[u8]) -> Option<usize>
    ensures { result ≡ position (λ b. b == 10) bytes.now }
{
    bytes.iter().position(|byte| *byte == b'\n')
}

// Appends bytes to a line, up to `KEPT` bytes in all.
fn keep_bytes(line: &mut Kept, bytes: &[u8])
    ensures { line.new.items ≡ take KEPT (line.old.items ++ bytes.now) }
{
    let n = line.remaining_capacity().min(bytes.len());
    let _ = line.try_extend_from_slice(&bytes[..n]);
}

// Returns the line that ends in this piece, as much of it as is kept. A line of one piece is not
// copied.
fn ended_line<'a>(line: &'a mut Kept, piece: &'a [u8]) -> &'a [u8]
    ensures { result.now ≡ take KEPT (line.old.items ++ piece.now) }
{
    if line.is_empty() {
        return &piece[..KEPT.min(piece.len())];
    }
    keep_bytes(line, piece);
    line.as_slice()
}

/// Replies to the lines that end in these bytes, and keeps what follows the last of them.
pub fn take_lines<W: Write>(
    tree: &mut NumberTree,
    line: &mut Kept,
    bytes: &[u8],
    out: &mut Output<W>,
) -> Result<(), ServeError>
    requires { array_vec_len line.old ≤ KEPT }
    ensures replies { RepliesTo out.old out.new tree.old.contents line.old.items bytes.now result }
    ensures pairs { CarriesOutAll tree.old tree.new line.old.items bytes.now result }
    ensures line { OnOk result (line.new.items ≡ clipped_rest line.old.items bytes.now) }
{
    let mut rest = bytes;
    while let Some(at) = line_end(rest) {
        serve_line(tree, ended_line(line, &rest[..at]), out)?;
        line.clear();
        rest = &rest[at + 1..];
    }
    keep_bytes(line, rest);
    Ok(())
}
