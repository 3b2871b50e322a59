//! Callers of cursors.
ghost use Rattle.std.specs.Prelude.{◌≡◌, ◌∷◌, [], true, false, slice_get, IfOk, IsOk, Ok, Some, None};
ghost use Rattle.std.specs.Ordering.{nat_cmp};
ghost use Rattle.std.specs.Option.{option_map};
ghost use Rattle.bptree_keys.specs.Contents.{has, next, last_member};
ghost use Rattle.bptree_keys.specs.Neighbours.{IsAfter};
ghost use Rattle.bptree_tree.specs.Cursor.{cursor_key, pair_after, pair_before};
ghost use Rattle.bptree_propagation.specs.Failing.{OkIs};
ghost use Rattle.bptree_contract_tests.specs.Words.{ReadsAt, StepsBackTo, key_before_without, reported_key};

use bptree_keys::contents::laws_of_neighbours;
use bptree_keys::key::Key;
use bptree_stores::node_stores::NodeStore;
use bptree_tree::{BPlusTree, Cursor};
use std::alloc::AllocError;

// A cursor for a key is at the key, whether or not the key is present, and comes with its value.
fn is_on_its_key<S: NodeStore<K = u64>>(
    tree: &BPlusTree<S>,
    k: u64,
) -> Result<(u64, Option<&S::V>), AllocError>
    ensures key { IfOk result (λ found. found.0 ≡ k) }
    ensures value { IfOk result (λ found. ReadsAt nat_cmp tree.now.contents k found.1) }
{
    match tree.get_cursor(&k)? {
        Some((cursor, value)) => Ok((*cursor.key(), value)),
        None => unreachable!(),
    }
}

// A tree without pairs has no first and no last cursor, and neither call fails.
fn has_no_ends<S: NodeStore>(
    tree: &BPlusTree<S>,
) -> (
    Result<Option<(Cursor<S::K>, &S::V)>, AllocError>,
    Result<Option<(Cursor<S::K>, &S::V)>, AllocError>,
    Result<Option<Cursor<S::K>>, AllocError>,
)
    requires { tree.now.contents ≡ [] }
    ensures { result ≡ (Ok None, Ok None, Ok None) }
{
    (Cursor::first(tree), Cursor::last(tree), tree.cursor_first())
}

// The key of a cursor, if there is one.
fn key_of(cursor: Option<Cursor<u64>>) -> Option<u64>
    ensures { result ≡ option_map (λ there. cursor_key there) cursor }
{
    match cursor {
        Some(there) => Some(*there.key()),
        None => None,
    }
}

// The key of a cursor and its value, if there is a cursor.
fn pair_of(found: Option<(Cursor<u64>, &u64)>) -> Option<(u64, u64)>
    ensures { result ≡ option_map (λ it. (cursor_key it.0, it.1.now)) found.entry }
{
    match found {
        Some((there, value)) => Some((*there.key(), *value)),
        None => None,
    }
}

// The first pair, the last pair, and the key of the first cursor.
fn is_on_the_first<S: NodeStore<K = u64, V = u64>>(
    tree: &BPlusTree<S>,
) -> Result<Option<(u64, u64)>, AllocError>
    ensures { IfOk result (λ it. it ≡ slice_get tree.now.contents 0) }
{
    match Cursor::first(tree)? {
        Some((cursor, value)) => Ok(Some((*cursor.key(), *value))),
        None => Ok(None),
    }
}

fn is_on_the_last<S: NodeStore<K = u64, V = u64>>(
    tree: &BPlusTree<S>,
) -> Result<Option<(u64, u64)>, AllocError>
    ensures { IfOk result (λ it. it ≡ last_member tree.now.contents) }
{
    match Cursor::last(tree)? {
        Some((cursor, value)) => Ok(Some((*cursor.key(), *value))),
        None => Ok(None),
    }
}

fn begins_on_the_first<S: NodeStore<K = u64>>(
    tree: &BPlusTree<S>,
) -> Result<Option<u64>, AllocError>
    ensures { IfOk result (λ key. key ≡ reported_key (slice_get tree.now.contents 0)) }
{
    Ok(key_of(tree.cursor_first()?))
}

// The key after a cursor and the key before it. A clone of a number never fails, so that a step
// does not fail either.
fn goes_on<S: NodeStore<K = u64>>(cursor: &Cursor<u64>, tree: &BPlusTree<S>) -> Option<u64>
    ensures { result ≡ reported_key (pair_after nat_cmp tree.now.contents cursor.now) }
{
    match cursor.next(tree) {
        Ok(found) => key_of(found),
        Err(_) => unreachable!(),
    }
}

fn goes_back<S: NodeStore<K = u64>>(cursor: &Cursor<u64>, tree: &BPlusTree<S>) -> Option<u64>
    ensures { result ≡ reported_key (pair_before nat_cmp tree.now.contents cursor.now) }
{
    match cursor.prev(tree) {
        Ok(found) => key_of(found),
        Err(_) => unreachable!(),
    }
}

// A step over keys whose clones never fail does not fail, and neither does a clone of a cursor.
fn steps_without_memory<S: NodeStore>(
    cursor: &Cursor<S::K>,
    tree: &BPlusTree<S>,
) -> (
    Result<Option<Cursor<S::K>>, AllocError>,
    Result<Option<Cursor<S::K>>, AllocError>,
    bool,
    bool,
)
    requires { (key : S.K) → S.K.is_infallible key }
    ensures steps { IsOk result.0 × IsOk result.1 }
    ensures ends { (result.2 ≡ true) × (result.3 ≡ true) }
{
    (
        cursor.next(tree),
        cursor.prev(tree),
        Cursor::first(tree).is_ok(),
        Cursor::last(tree).is_ok(),
    )
}

fn copies_without_memory(cursor: &Cursor<u64>) -> Cursor<u64>
    ensures { cursor_key result ≡ cursor_key cursor.now }
{
    match cursor.clone() {
        Ok(copy) => copy,
        Err(_) => unreachable!(),
    }
}

// The pairs after and before a cursor. Neither step affects the other.
fn goes_either_way_with_the_value<S: NodeStore<K = u64, V = u64>>(
    cursor: &Cursor<u64>,
    tree: &BPlusTree<S>,
) -> (Option<(u64, u64)>, Option<(u64, u64)>)
    ensures on { result.0 ≡ pair_after nat_cmp tree.now.contents cursor.now }
    ensures back { result.1 ≡ pair_before nat_cmp tree.now.contents cursor.now }
{
    match (cursor.next_with_value(tree), cursor.prev_with_value(tree)) {
        (Ok(after), Ok(before)) => (pair_of(after), pair_of(before)),
        _ => unreachable!(),
    }
}

// A cursor whose key was removed has no value, and the same neighbours.
fn keeps_its_neighbours<S: NodeStore<K = u64, V = u64>>(
    tree: &mut BPlusTree<S>,
) -> Result<(bool, Option<u64>, Option<u64>), AllocError>
    requires { tree.old.contents ≡ (1, 10) ∷ (2, 20) ∷ (3, 30) ∷ [] }
    ensures { IfOk result (λ it. it ≡ (false, Some 1, Some 3)) }
{
    match tree.get_cursor(&2)? {
        Some((cursor, _)) => {
            tree.remove(&2)?;
            Ok((
                cursor.exists(tree),
                goes_back(&cursor, tree),
                goes_on(&cursor, tree),
            ))
        }
        None => unreachable!(),
    }
}

// After a removal the key before a cursor is one of the keys that are left, also if two leaves
// before the cursor's leaf were merged.
fn goes_back_after_a_removal<S: NodeStore<K = u64>>(
    tree: &mut BPlusTree<S>,
    k: u64,
    cursor: &Cursor<u64>,
) -> Result<Option<u64>, AllocError>
    ensures { OkIs result (key_before_without nat_cmp tree.old.contents k cursor.now) }
{
    tree.remove(&k)?;
    Ok(goes_back(cursor, tree))
}

// A cursor reads what a look-up of its key reads.
fn reads_as_a_look_up<S: NodeStore<V = u64>>(cursor: &Cursor<S::K>, tree: &BPlusTree<S>) -> bool
    ensures { result ≡ true }
{
    cursor.value(tree).copied() == tree.get(cursor.key()).copied()
}

// A cursor exists if and only if its key is present.
fn is_there<S: NodeStore>(cursor: &Cursor<S::K>, tree: &BPlusTree<S>) -> bool
    ensures { result ≡ has S.K.cmp tree.now.contents (cursor_key cursor.now) }
{
    cursor.exists(tree)
}

// The next key of ascending pairs is the least greater one, and the previous key the greatest
// smaller one.
fn steps_to_the_nearest<S: NodeStore>(tree: &BPlusTree<S>, k: &S::K) -> usize
    ensures after { IsAfter S.K.cmp tree.now.contents k.now (next S.K.cmp tree.now.contents k.now) }
    ensures before { StepsBackTo S.K.cmp tree.now.contents k.now }
{
    laws_of_neighbours::<S::K, S::V>();
    tree.len()
}

// Copies and clones of a cursor are at the cursor's key.
fn is_copied<K: Key + Copy>(cursor: &Cursor<K>) -> Cursor<K>
    ensures { cursor_key result ≡ cursor_key cursor.now }
{
    *cursor
}
