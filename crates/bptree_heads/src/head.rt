//! The trait of keys that have a head, and the heads of strings and pairs.
ghost use Rattle.std.specs.Prelude.{◌≡◌, ◌<◌, ◌≤◌, ℕ, get_or, length, string_bytes, take};
ghost use Rattle.std.specs.declared.cmp.Ordering.TheVariants.{Less};
ghost use Rattle.std.specs.Ordering.{nat_cmp};
ghost use Rattle.std.specs.Cmp.Lexicographic.{slice_cmp};
ghost use Rattle.bptree_heads.specs.Heads.{HaveSameHead, IsHeadOf, heads_decide, head_of_first};

use bptree_keys::key::Key;
use std::cmp::Ordering;

/// A key with a head: a number that determines the order of two keys if their heads differ.
pub trait HasHead: Key {
    /// Whether a number is the head of a key.
    ghost is_head: { Self → ℕ → Type 0 };

    /// The head of the key.
    ///
    /// O(1). It allocates nothing and cannot fail.
    fn head(&self) -> u64
        ensures { is_head self.now result };

    ghost decides: { (x y : Self) (h k : ℕ) → is_head x h → is_head y k → h < k → Self.cmp x y ≡ Less };
}

impl HasHead for String {
    ghost is_head = { λ text head. IsHeadOf (string_bytes text) head };

    fn head(&self) -> u64 {
        head_of(self.as_bytes())
    }

    ghost decides = { λ x y h k. heads_decide (string_bytes x) (string_bytes y) h k };
}

/// The head of a pair is that of its first part.
impl<A: HasHead, B: Key> HasHead for (A, B) {
    ghost is_head = { λ pair head. A.is_head pair.0 head };

    fn head(&self) -> u64 {
        self.0.head()
    }

    ghost decides = { λ x y h k first second less. head_of_first (B.cmp x.1 y.1) (A.decides x.0 y.0 h k first second less) };
}

/// The first eight bytes as a number, the first byte as the greatest digit. A shorter string counts
/// as if zeros followed it.
///
/// O(1). It allocates nothing and cannot fail.
pub fn head_of(bytes: &[u8]) -> u64
    ensures { IsHeadOf bytes.now result }
{
    let later = digit(bytes, 4) * 0x100_0000
        + digit(bytes, 5) * 0x1_0000
        + digit(bytes, 6) * 0x100
        + digit(bytes, 7);
    digit(bytes, 0) * 0x100_0000_0000_0000
        + digit(bytes, 1) * 0x1_0000_0000_0000
        + digit(bytes, 2) * 0x100_0000_0000
        + digit(bytes, 3) * 0x1_0000_0000
        + later
}

/// Compares two strings of bytes with their heads. It reads the bytes only if both heads are equal.
///
/// O(1) if the heads differ, and else O(n) for strings of n bytes. It allocates nothing and cannot
/// fail.
#[inline(always)]
pub fn compare(head: u64, bytes: &[u8], other_head: u64, other: &[u8]) -> Ordering
    requires head { IsHeadOf bytes.now head }
    requires other_head { IsHeadOf other.now other_head }
    ensures { result ≡ slice_cmp nat_cmp bytes.now other.now }
{
    if head < other_head {
        Ordering::Less
    } else if head > other_head {
        Ordering::Greater
    } else {
        compare_rests(bytes, other)
    }
}

// Compares two strings of bytes with the same head. If both have eight bytes or more, these are
// equal, and the bytes behind them are compared by words of eight. The last word ends with the last
// byte of the shorter string, so it may overlap the word before it.
#[inline(always)]
fn compare_rests(bytes: &[u8], other: &[u8]) -> Ordering
    requires { HaveSameHead IsHeadOf bytes.now other.now }
    ensures { result ≡ slice_cmp nat_cmp bytes.now other.now }
{
    let both = bytes.len().min(other.len());
    if both < 8 {
        return bytes.cmp(other);
    }
    let last = both - 8;
    let mut at = 8;
    'words: while at < both {
        let from = at.min(last);
        let word = word_of(&bytes[from..]);
        let other_word = word_of(&other[from..]);
        if word != other_word {
            return word.cmp(&other_word);
        }
        at = from + 8;
    }
    bytes.len().cmp(&other.len())
}

// The head of a string of eight bytes or more.
#[inline(always)]
fn word_of(bytes: &[u8]) -> u64
    requires { 8 ≤ length bytes.now }
    ensures { IsHeadOf bytes.now result }
{
    let later = byte(bytes, 4) * 0x100_0000
        + byte(bytes, 5) * 0x1_0000
        + byte(bytes, 6) * 0x100
        + byte(bytes, 7);
    byte(bytes, 0) * 0x100_0000_0000_0000
        + byte(bytes, 1) * 0x1_0000_0000_0000
        + byte(bytes, 2) * 0x100_0000_0000
        + byte(bytes, 3) * 0x1_0000_0000
        + later
}

// The byte at an index.
#[inline(always)]
fn byte(bytes: &[u8], index: usize) -> u64
    requires { index < length bytes.now }
    ensures digit { result ≡ get_or bytes.now index 0 }
    ensures below { result < 256 }
{
    u64::from(bytes[index])
}

// The byte at an index, or 0 behind the last one.
#[inline(always)]
fn digit(bytes: &[u8], index: usize) -> u64
    ensures digit { result ≡ get_or bytes.now index 0 }
    ensures below { result < 256 }
{
    match bytes.get(index) {
        Some(byte) => u64::from(*byte),
        None => 0,
    }
}
