//! Lines of text as requests to a map from numbers to numbers.
#![tactic(auto)]

ghost use Rattle.std.specs.Prelude.{◌≡◌, [], ◌∷◌};
ghost use Rattle.std.specs.Option.{option_copied};
ghost use Rattle.bptree_protocol.specs.Law.{OneWriting, LongLinesAreNone};
ghost use Rattle.bptree_protocol.specs.Number.{number_of};
ghost use Rattle.bptree_protocol.specs.Request.{words, words_after, request_from, request_of};

/// The length in bytes of the longest line that is a request.
pub const LONGEST_LINE: usize = 47;

/// A request that a line makes of a map.
#[derive(Clone, Copy, Debug, PartialEq, Eq)]
pub enum Request {
    /// `put k v`: stores v as the value at k.
    Put(u64, u64),
    /// `del k`: removes the pair at k.
    Del(u64),
    /// `get k`: the value at k.
    Get(u64),
    /// `len`: the number of pairs.
    Len,
    /// `all`: all pairs.
    All,
    /// `first`: the pair with the least key.
    First,
    /// `last`: the pair with the greatest key.
    Last,
    /// `at i`: the pair at index i.
    At(u64),
    /// `rank k`: the number of smaller keys, and whether k is present.
    Rank(u64),
    /// `next k`: the pair with the least key above k.
    Next(u64),
    /// `prev k`: the pair with the greatest key below k.
    Prev(u64),
    /// `back`: all pairs, in descending order.
    Back,
    /// `clear`: removes all pairs.
    Clear,
    /// `range a b`: the pairs with keys from a on and below b.
    Range(u64, u64),
    /// `page p s`: the pairs of page p, with s pairs a page.
    Page(u64, u64),
}

/// The number that a word writes: `0`, or a digit 1 to 9 followed by digits, below 2 to the power
/// of 64. Returns `None` for a word with a sign, a leading zero, or a byte that is no digit. O(n)
/// in the bytes of the word. It allocates nothing.
#[tactic(auto, unfolding(crate::specs::Number::number_of))]
pub fn number(word: &[u8]) -> Option<u64>
    ensures { result ≡ number_of word.now }
{
    if word.is_empty() {
        return None;
    }
    if word[0] == b'0' && word.len() > 1 {
        return None;
    }
    let mut value = 0u64;
    for byte in word {
        if !byte.is_ascii_digit() {
            return None;
        }
        let digit = u64::from(*byte - b'0');
        if value > u64::MAX / 10 {
            return None;
        }
        if value * 10 > u64::MAX - digit {
            return None;
        }
        value = value * 10 + digit;
    }
    Some(value)
}

// Returns the first word, and what follows the space after it. The second part is `None` if the
// line has no space.
fn first_word(line: &[u8]) -> (&[u8], Option<&[u8]>)
    ensures { words line.now ≡ result.0.now ∷ words_after (option_copied result.1) }
{
    for (i, byte) in line.iter().enumerate() {
        if *byte == b' ' {
            return (&line[..i], Some(&line[i + 1..]));
        }
    }
    (line, None)
}

/// The request that a line writes, or `None` if it writes no request. Two words have exactly one
/// space between them. No space comes before the first word or after the last. The line comes
/// without its line feed. O(n) in the bytes of the line. It allocates nothing.
pub fn read_request(line: &[u8]) -> Option<Request>
    ensures { result ≡ request_of line.now }
{
    let (name, rest) = first_word(line);
    let Some(rest) = rest else {
        return bare_request(name);
    };
    let (first, rest) = first_word(rest);
    let Some(rest) = rest else {
        return key_request(name, first);
    };
    let (second, rest) = first_word(rest);
    match rest {
        None => pair_request(name, first, second),
        Some(_) => None,
    }
}

fn bare_request(name: &[u8]) -> Option<Request>
    ensures { result ≡ request_from (name.now ∷ []) }
{
    if name == b"len".as_slice() {
        Some(Request::Len)
    } else if name == b"all".as_slice() {
        Some(Request::All)
    } else if name == b"first".as_slice() {
        Some(Request::First)
    } else if name == b"last".as_slice() {
        Some(Request::Last)
    } else if name == b"clear".as_slice() {
        Some(Request::Clear)
    } else if name == b"back".as_slice() {
        Some(Request::Back)
    } else {
        None
    }
}

fn key_request(name: &[u8], key: &[u8]) -> Option<Request>
    ensures { result ≡ request_from (name.now ∷ key.now ∷ []) }
{
    let key = number(key)?;
    if name == b"get".as_slice() {
        Some(Request::Get(key))
    } else if name == b"at".as_slice() {
        Some(Request::At(key))
    } else if name == b"rank".as_slice() {
        Some(Request::Rank(key))
    } else if name == b"del".as_slice() {
        Some(Request::Del(key))
    } else if name == b"next".as_slice() {
        Some(Request::Next(key))
    } else if name == b"prev".as_slice() {
        Some(Request::Prev(key))
    } else {
        None
    }
}

fn pair_request(name: &[u8], first: &[u8], second: &[u8]) -> Option<Request>
    ensures { result ≡ request_from (name.now ∷ first.now ∷ second.now ∷ []) }
{
    let (first, second) = (number(first)?, number(second)?);
    if name == b"put".as_slice() {
        Some(Request::Put(first, second))
    } else if name == b"range".as_slice() {
        Some(Request::Range(first, second))
    } else if name == b"page".as_slice() {
        Some(Request::Page(first, second))
    } else {
        None
    }
}

/// A line is read as a request if and only if it is the line that writes the request and the
/// request's numbers fit 64 bits.
pub fn one_writing()
    ensures { OneWriting }
{}

/// A line of more than `LONGEST_LINE` bytes is no request.
pub fn long_lines_are_none()
    ensures { LongLinesAreNone }
{}
