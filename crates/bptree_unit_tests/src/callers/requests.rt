//! Callers of the reading of requests.
ghost use Rattle.std.specs.Prelude.{◌≡◌, ◌<◌, ◌^◌, ◌++◌, ℕ, None, Some, length, codes, decimal};
ghost use Rattle.bptree_protocol.specs.Request.{line_of};
ghost use Rattle.bptree_protocol.specs.declared.Request.{Request};

use bptree_protocol::{
    LONGEST_LINE, Request, long_lines_are_none, number, one_writing, read_request,
};

// Each line that writes a request is read as that request, and as no other. A line with a leading
// zero, one more space or one more word is no request.
fn reads_what_is_written(line: &[u8]) -> Option<Request>
    ensures put { (key value : ℕ) → key < 2 ^ 64 → value < 2 ^ 64 → line.now ≡ line_of (Request.Put key value) → result ≡ Some (Request.Put key value) }
    ensures get { (key : ℕ) → key < 2 ^ 64 → line.now ≡ codes "get " ++ decimal key → result ≡ Some (Request.Get key) }
    ensures del { (key : ℕ) → key < 2 ^ 64 → line.now ≡ codes "del " ++ decimal key → result ≡ Some (Request.Del key) }
    ensures at { (index : ℕ) → index < 2 ^ 64 → line.now ≡ codes "at " ++ decimal index → result ≡ Some (Request.At index) }
    ensures rank { (key : ℕ) → key < 2 ^ 64 → line.now ≡ codes "rank " ++ decimal key → result ≡ Some (Request.Rank key) }
    ensures clear { line.now ≡ codes "clear" → result ≡ Some Request.Clear }
    ensures len { line.now ≡ codes "len" → result ≡ Some Request.Len }
    ensures all { line.now ≡ codes "all" → result ≡ Some Request.All }
    ensures first { line.now ≡ codes "first" → result ≡ Some Request.First }
    ensures last { line.now ≡ codes "last" → result ≡ Some Request.Last }
    ensures no_other { (request : Request) → result ≡ Some request → line.now ≡ line_of request }
{
    one_writing();
    read_request(line)
}

// A line that is too long is no request.
fn rejects_a_long_line(line: &[u8]) -> Option<Request>
    requires { LONGEST_LINE < length line.now }
    ensures { result ≡ None }
{
    long_lines_are_none();
    read_request(line)
}

// A word that writes a number is read as that number, including the greatest one. No other word is
// read as a number.
fn reads_a_number(word: &[u8]) -> Option<u64>
    ensures there { (value : ℕ) → value < 2 ^ 64 → word.now ≡ decimal value → result ≡ Some value }
    ensures no_other { (value : ℕ) → result ≡ Some value → word.now ≡ decimal value }
{
    number(word)
}
