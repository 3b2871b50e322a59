//! The replies to lines.
ghost use Rattle.std.specs.Prelude.{◌≡◌, ◌≤◌, [], ◌++◌, codes, decimal, length, OnOk, option_map, slice_get};
ghost use Rattle.std.specs.Ordering.{nat_cmp};
ghost use Rattle.bptree_keys.specs.Contents.{del};
ghost use Rattle.bptree_protocol.specs.Request.{request_of};
ghost use Rattle.bptree_tree.specs.Cursor.{cursor_key};
ghost use Rattle.bptree_commands.specs.ReplyLists.{pair_text, found_text, item_text, pairs_text, page_text, key_rank_text, old_text, gone_text, del_text, value_text, put_text, pairs_with_put, reply_to, reply_text, outcome, pairs_after_command};
ghost use Rattle.bptree_commands.specs.Carried.{CarriesOut};
ghost use Rattle.bptree_commands.specs.Ends.{seen_from};
ghost use Rattle.bptree_commands.specs.Sent.{SendsOrFails, Replies};
ghost use Rattle.bptree_commands.specs.Steps.{pair_beside, reported_pair};
ghost use Rattle.std.specs.Map.Iter.{deref_pair};

use crate::error::ServeError;
use crate::held::beside;
use crate::output::Output;
use crate::walk::{End, take_pair};
use arrayvec::ArrayString;
use bptree_arguments::count::Count;
use bptree_keys::end::Side;
use bptree_protocol::{Request, read_request};
use bptree_stores::node_store_vec::NodeStoreVec;
use bptree_stores::node_stores::NodeStore;
use bptree_tree::cursor::Cursor;
use bptree_tree::iterator::Iter;
use bptree_tree::{BPlusTree, InsertError};
use std::fmt::Write as _;
use std::io::Write;

/// The tree on which lines are carried out.
pub type NumberTree = BPlusTree<NodeStoreVec<u64, u64, Count>>;

/// The number of digits of the greatest number.
const DIGITS: usize = 20;

/// The greatest number of bytes of a label before a number.
const LABEL: usize = 5;

fn send_number<W: Write>(out: &mut Output<W>, n: u64) -> Result<(), ServeError>
    ensures { SendsOrFails out.old out.new (decimal n) result }
{
    let mut digits = ArrayString::<{ DIGITS }>::new();
    match write!(digits, "{n}") {
        Ok(()) => out.send(digits.as_str().as_bytes()),
        // Never met: there is room for each number.
        Err(_) => Err(ServeError::Io),
    }
}

// Sends a label, and then a number.
fn send_labelled<W: Write>(out: &mut Output<W>, label: &[u8], n: u64) -> Result<(), ServeError>
    requires { length label.now ≤ LABEL }
    ensures { SendsOrFails out.old out.new (label.now ++ decimal n) result }
{
    out.send(label)?;
    send_number(out, n)
}

fn send_old<W: Write>(out: &mut Output<W>, old: Option<u64>) -> Result<(), ServeError>
    ensures { SendsOrFails out.old out.new (old_text old) result }
{
    match old {
        None => out.send(b"new"),
        Some(old) => send_labelled(out, b"old ", old),
    }
}

fn send_gone<W: Write>(out: &mut Output<W>, gone: Option<u64>) -> Result<(), ServeError>
    ensures { SendsOrFails out.old out.new (gone_text gone) result }
{
    match gone {
        None => out.send(b"none"),
        Some(gone) => send_labelled(out, b"gone ", gone),
    }
}

fn send_value<W: Write>(out: &mut Output<W>, value: Option<u64>) -> Result<(), ServeError>
    ensures { SendsOrFails out.old out.new (value_text value) result }
{
    match value {
        None => out.send(b"none"),
        Some(value) => send_number(out, value),
    }
}

fn send_pair<W: Write>(out: &mut Output<W>, key: u64, value: u64) -> Result<(), ServeError>
    ensures { SendsOrFails out.old out.new (pair_text (key, value)) result }
{
    send_number(out, key)?;
    out.send(b" ")?;
    send_number(out, value)
}

fn send_found<W: Write>(out: &mut Output<W>, pair: Option<(&u64, &u64)>) -> Result<(), ServeError>
    ensures { SendsOrFails out.old out.new (found_text (option_map deref_pair pair.entry)) result }
{
    match pair {
        None => out.send(b"none"),
        Some((key, value)) => send_pair(out, *key, *value),
    }
}

// Sends a pair, after a comma if it is not the first.
fn send_item<W: Write>(
    out: &mut Output<W>,
    is_first: bool,
    key: u64,
    value: u64,
) -> Result<(), ServeError>
    ensures { SendsOrFails out.old out.new (item_text is_first (key, value)) result }
{
    if is_first {
        return send_pair(out, key, value);
    }
    out.send(b",")?;
    send_pair(out, key, value)
}

// Sends the pairs, from one end to the other.
fn send_pairs<S: NodeStore<K = u64, V = u64, Argument = Count>, W: Write>(
    out: &mut Output<W>,
    pairs: Iter<'_, S>,
    end: End,
) -> Result<(), ServeError>
    ensures { SendsOrFails out.old out.new (pairs_text (seen_from end pairs.entry)) result }
{
    if pairs.len() == 0 {
        return out.send(b"empty");
    }
    let mut pairs = pairs;
    let mut is_first = true;
    while let Some((key, value)) = take_pair(&mut pairs, end) {
        send_item(out, is_first, *key, *value)?;
        is_first = false;
    }
    Ok(())
}

// Sends the pairs of a page, or `bad` if pages have no pairs.
fn send_page<S: NodeStore<K = u64, V = u64, Argument = Count>, W: Write>(
    out: &mut Output<W>,
    tree: &BPlusTree<S>,
    p: u64,
    s: u64,
) -> Result<(), ServeError>
    ensures { SendsOrFails out.old out.new (page_text tree.now.contents p s) result }
{
    if s == 0 {
        return out.send(b"bad");
    }
    tree.recall();
    match tree.range_by_argument(p.saturating_mul(s) as usize, s as usize) {
        Ok(pairs) => send_pairs(out, pairs, End::Front),
        Err(_) => unreachable!(),
    }
}

// Returns the pair at an index, if there is one.
fn pair_at<S: NodeStore<K = u64, V = u64, Argument = Count>>(
    tree: &BPlusTree<S>,
    index: u64,
) -> Option<(&u64, &u64)>
    ensures { option_map deref_pair result ≡ slice_get tree.now.contents index }
{
    match tree.get_by_argument(index as usize) {
        Ok(pair) => pair,
        Err(_) => unreachable!(),
    }
}

// Sends the key of a cursor with the value there, if a cursor was found.
fn send_beside<W: Write>(
    out: &mut Output<W>,
    found: Option<(Cursor<u64>, &u64)>,
) -> Result<(), ServeError>
    ensures { SendsOrFails out.old out.new (found_text (reported_pair found.entry)) result }
{
    match found {
        None => out.send(b"none"),
        Some((cursor, value)) => send_pair(out, *cursor.key(), *value),
    }
}

// Returns a cursor at the key, which need not be present.
fn cursor_on<S: NodeStore<K = u64, V = u64, Argument = Count>>(
    tree: &BPlusTree<S>,
    key: u64,
) -> Cursor<u64>
    ensures { cursor_key result ≡ key }
{
    match tree.get_cursor(&key) {
        Ok(Some((cursor, _))) => cursor,
        _ => unreachable!(),
    }
}

// Returns a cursor at the pair beside a key on a side, with the value there, if there is such a
// pair.
fn neighbour<S: NodeStore<K = u64, V = u64, Argument = Count>>(
    tree: &BPlusTree<S>,
    key: u64,
    side: Side,
) -> Option<(Cursor<u64>, &u64)>
    ensures { reported_pair result ≡ pair_beside nat_cmp side tree.now.contents key }
{
    let cursor = cursor_on(tree, key);
    match beside(tree, &cursor, side) {
        Ok(found) => found,
        Err(_) => unreachable!(),
    }
}

// Sends whether a key is present, and the number of smaller keys.
fn send_rank<S: NodeStore<K = u64, V = u64, Argument = Count>, W: Write>(
    out: &mut Output<W>,
    tree: &BPlusTree<S>,
    key: u64,
) -> Result<(), ServeError>
    ensures { SendsOrFails out.old out.new (key_rank_text tree.now.contents key) result }
{
    match tree.rank_by_argument(&key) {
        Ok(Ok(smaller)) => send_labelled(out, b"in ", smaller as u64),
        Ok(Err(smaller)) => send_labelled(out, b"out ", smaller as u64),
        Err(_) => unreachable!(),
    }
}

fn put_pair<S: NodeStore<K = u64, V = u64, Argument = Count>, W: Write>(
    tree: &mut BPlusTree<S>,
    key: u64,
    value: u64,
    out: &mut Output<W>,
) -> Result<(), ServeError>
    ensures replies { Replies out.old out.new (put_text tree.old.contents key) result }
    ensures pairs { OnOk result (tree.new.contents ≡ pairs_with_put tree.old.contents key value) }
{
    match tree.insert(key, value) {
        Ok(old) => send_old(out, old),
        Err(InsertError::Full(_, _)) => out.send(b"full"),
        Err(InsertError::OutOfMemory(_, _)) => Err(ServeError::OutOfMemory),
    }
}

fn delete_pair<S: NodeStore<K = u64, V = u64, Argument = Count>, W: Write>(
    tree: &mut BPlusTree<S>,
    key: u64,
    out: &mut Output<W>,
) -> Result<(), ServeError>
    ensures replies { Replies out.old out.new (del_text tree.old.contents key) result }
    ensures pairs { OnOk result (tree.new.contents ≡ del nat_cmp tree.old.contents key) }
{
    match tree.remove(&key) {
        Ok(gone) => send_gone(out, gone),
        Err(_) => Err(ServeError::OutOfMemory),
    }
}

fn delete_all<S: NodeStore<K = u64, V = u64, Argument = Count>, W: Write>(
    tree: &mut BPlusTree<S>,
    out: &mut Output<W>,
) -> Result<(), ServeError>
    ensures replies { Replies out.old out.new (codes "cleared") result }
    ensures pairs { OnOk result (tree.new.contents ≡ []) }
{
    match tree.clear() {
        Ok(()) => out.send(b"cleared"),
        Err(_) => Err(ServeError::OutOfMemory),
    }
}

fn carry_out<S: NodeStore<K = u64, V = u64, Argument = Count>, W: Write>(
    tree: &mut BPlusTree<S>,
    request: Request,
    out: &mut Output<W>,
) -> Result<(), ServeError>
    ensures replies { Replies out.old out.new (reply_to tree.old.contents (Some request)) result }
    ensures pairs { CarriesOut tree.old tree.new (Some request) result }
{
    match request {
        Request::Put(key, value) => put_pair(tree, key, value, out),
        Request::Del(key) => delete_pair(tree, key, out),
        Request::Get(key) => send_value(out, tree.get(&key).copied()),
        Request::Len => send_number(out, tree.len() as u64),
        Request::All => send_pairs(out, tree.iter(), End::Front),
        Request::Back => send_pairs(out, tree.iter(), End::Back),
        Request::Range(lo, hi) => send_pairs(out, tree.range(Some(&lo), Some(&hi)), End::Front),
        Request::Page(p, s) => send_page(out, tree, p, s),
        Request::First => send_found(out, tree.first()),
        Request::Last => send_found(out, tree.last()),
        Request::At(index) => send_found(out, pair_at(tree, index)),
        Request::Rank(key) => send_rank(out, tree, key),
        Request::Next(key) => send_beside(out, neighbour(tree, key, Side::After)),
        Request::Prev(key) => send_beside(out, neighbour(tree, key, Side::Before)),
        Request::Clear => delete_all(tree, out),
    }
}

fn reply_line<S: NodeStore<K = u64, V = u64, Argument = Count>, W: Write>(
    tree: &mut BPlusTree<S>,
    line: &[u8],
    out: &mut Output<W>,
) -> Result<(), ServeError>
    ensures replies { Replies out.old out.new (reply_text tree.old.contents line.now) result }
    ensures pairs { CarriesOut tree.old tree.new (request_of line.now) result }
{
    match read_request(line) {
        None => out.send(b"bad"),
        Some(request) => carry_out(tree, request, out),
    }
}

/// Carries out a line, and sends the reply with a line feed.
#[tactic(auto, unfolding(crate::specs::ReplyLists::pairs_after_command))]
pub fn serve_line<S: NodeStore<K = u64, V = u64, Argument = Count>, W: Write>(
    tree: &mut BPlusTree<S>,
    line: &[u8],
    out: &mut Output<W>,
) -> Result<(), ServeError>
    ensures replies { Replies out.old out.new (outcome tree.old.contents line.now) result }
    ensures pairs { OnOk result (tree.new.contents ≡ pairs_after_command tree.old.contents line.now) }
{
    reply_line(tree, line, out)?;
    out.send(b"\n")
}
