//! Leaves and pairs that move from one list to another. These functions allocate nothing and cannot
//! fail.
ghost use Rattle.std.specs.Prelude.{◌≡◌, ◌+◌, ◌<◌, ◌≤◌, ◌^◌, ◌++◌, ◌∷◌, [], length, take, drop, vec_capacity, vec_len};
ghost use Rattle.std.specs.Vec.Iter.{into_iter_items, into_iter_len};
ghost use Rattle.bptree_bulk_load.specs.Rooms.{joined, parts_of};
ghost use Rattle.bptree_bulk.specs.Cut.{pieces, IsHalf};
ghost use Rattle.bptree_bulk.specs.Gap.{without_part};
ghost use Rattle.bptree_bulk.specs.Moving.{poured, poured_around};

use bptree_keys::key::Key;
use bptree_nodes::leaf_node::LeafNode;
use std::vec::IntoIter;

/// Moves the next `count` members to the end of `to`.
pub(crate) fn pass<T: Drop>(items: &mut IntoIter<T>, count: usize, to: &mut Vec<T>)
    requires counted { into_iter_len items.old ≡ length (into_iter_items items.old) }
    requires some { count ≤ length (into_iter_items items.old) }
    requires room { vec_len to.old + count ≤ vec_capacity to.old }
    ensures moved { to.new.items ≡ to.old.items ++ take count (into_iter_items items.old) }
    ensures rest { into_iter_items items.new ≡ drop count (into_iter_items items.old) }
    ensures counted { into_iter_len items.new ≡ length (into_iter_items items.new) }
    ensures len { vec_len to.new ≡ vec_len to.old + count }
    ensures capacity { vec_capacity to.new ≡ vec_capacity to.old }
{
    let mut left = count;
    'items: while left > 0 {
        to.push_reserved(items.next().unwrap());
        left -= 1;
    }
}

// Moves the pairs of a leaf to the end of `pairs`.
fn pour_leaf<K: Key, V: Drop>(leaf: Box<LeafNode<K, V>>, pairs: &mut Vec<(K, V)>)
    requires room { vec_len pairs.old + length leaf.value.pairs ≤ vec_capacity pairs.old }
    ensures moved { pairs.new.items ≡ pairs.old.items ++ leaf.value.pairs }
    ensures len { vec_len pairs.new ≡ vec_len pairs.old + length leaf.value.pairs }
    ensures capacity { vec_capacity pairs.new ≡ vec_capacity pairs.old }
{
    let mut items = LeafNode::into_pairs(leaf);
    'items: while let Some(pair) = items.next() {
        pairs.push_reserved(pair);
    }
}

/// Moves the pairs of the next `count` leaves behind others.
///
/// O(1) a pair. It allocates nothing and cannot fail.
pub fn pour<K: Key, V: Drop>(
    leaves: &mut IntoIter<Box<LeafNode<K, V>>>,
    count: usize,
    pairs: &mut Vec<(K, V)>,
)
    requires counted { into_iter_len leaves.old ≡ length (into_iter_items leaves.old) }
    requires some { count ≤ length (into_iter_items leaves.old) }
    requires room { vec_len pairs.old + length (poured count (into_iter_items leaves.old)) ≤ vec_capacity pairs.old }
    ensures moved { pairs.new.items ≡ pairs.old.items ++ poured count (into_iter_items leaves.old) }
    ensures rest { into_iter_items leaves.new ≡ drop count (into_iter_items leaves.old) }
    ensures counted { into_iter_len leaves.new ≡ length (into_iter_items leaves.new) }
{
    let mut left = count;
    'leaves: while left > 0 {
        pour_leaf(leaves.next().unwrap(), pairs);
        left -= 1;
    }
}

// Moves the pairs of a leaf behind others, without those from one index up to another. If no pair
// of the leaf stays, the leaf is dropped as it is.
fn pour_leaf_around<K: Key, V: Drop>(
    leaf: Box<LeafNode<K, V>>,
    before: usize,
    behind: usize,
    pairs: &mut Vec<(K, V)>,
)
    requires order { before ≤ behind }
    requires room { vec_len pairs.old + length (without_part before behind leaf.value.pairs) ≤ vec_capacity pairs.old }
    ensures moved { pairs.new.items ≡ pairs.old.items ++ without_part before behind leaf.value.pairs }
    ensures len { vec_len pairs.new ≡ vec_len pairs.old + length (without_part before behind leaf.value.pairs) }
    ensures capacity { vec_capacity pairs.new ≡ vec_capacity pairs.old }
{
    if before == 0 && behind >= leaf.as_ref().len() {
        return;
    }
    let mut before = before;
    let mut behind = behind;
    let mut items = LeafNode::into_pairs(leaf);
    'items: while let Some(pair) = items.next() {
        if before > 0 {
            before -= 1;
            behind -= 1;
            pairs.push_reserved(pair);
        } else if behind > 0 {
            behind -= 1;
        } else {
            pairs.push_reserved(pair);
        }
    }
}

/// Moves the pairs of the next `count` leaves behind others, and drops those from one index up to
/// another.
pub(crate) fn pour_around<K: Key, V: Drop>(
    leaves: &mut IntoIter<Box<LeafNode<K, V>>>,
    count: usize,
    before: usize,
    behind: usize,
    pairs: &mut Vec<(K, V)>,
)
    requires counted { into_iter_len leaves.old ≡ length (into_iter_items leaves.old) }
    requires some { count ≤ length (into_iter_items leaves.old) }
    requires order { before ≤ behind }
    requires room { vec_len pairs.old + length (poured_around before behind count (into_iter_items leaves.old)) ≤ vec_capacity pairs.old }
    ensures moved { pairs.new.items ≡ pairs.old.items ++ poured_around before behind count (into_iter_items leaves.old) }
    ensures rest { into_iter_items leaves.new ≡ drop count (into_iter_items leaves.old) }
    ensures counted { into_iter_len leaves.new ≡ length (into_iter_items leaves.new) }
{
    let mut before = before;
    let mut behind = behind;
    let mut left = count;
    'leaves: while left > 0 {
        let leaf = leaves.next().unwrap();
        let len = leaf.as_ref().len();
        pour_leaf_around(leaf, before, behind, pairs);
        before = before.saturating_sub(len);
        behind = behind.saturating_sub(len);
        left -= 1;
    }
}

/// Fills an empty leaf with the next `count` pairs, and puts it behind others.
pub(crate) fn fill_piece<K: Key, V: Drop>(
    items: &mut IntoIter<(K, V)>,
    count: usize,
    room: Box<LeafNode<K, V>>,
    leaves: &mut Vec<Box<LeafNode<K, V>>>,
)
    requires empty { room.value.pairs ≡ [] }
    requires counted { into_iter_len items.old ≡ length (into_iter_items items.old) }
    requires some { count ≤ length (into_iter_items items.old) }
    requires most { count ≤ 64 }
    requires room { vec_len leaves.old < vec_capacity leaves.old }
    ensures leaves { parts_of leaves.new.items ≡ parts_of leaves.old.items ++ take count (into_iter_items items.old) ∷ [] }
    ensures rest { into_iter_items items.new ≡ drop count (into_iter_items items.old) }
    ensures counted { into_iter_len items.new ≡ length (into_iter_items items.new) }
    ensures len { vec_len leaves.new ≡ vec_len leaves.old + 1 }
    ensures capacity { vec_capacity leaves.new ≡ vec_capacity leaves.old }
{
    let mut leaf = room;
    leaf.as_mut().fill_from(items, count);
    leaves.push_reserved(leaf);
}

/// Fills one empty leaf or two with the next `count` pairs, and puts them behind others.
pub(crate) fn fill_pieces<K: Key, V: Drop>(
    items: &mut IntoIter<(K, V)>,
    count: usize,
    half: usize,
    rooms: (Box<LeafNode<K, V>>, Box<LeafNode<K, V>>),
    leaves: &mut Vec<Box<LeafNode<K, V>>>,
)
    requires empty { (rooms.0.value.pairs ≡ []) × (rooms.1.value.pairs ≡ []) }
    requires counted { into_iter_len items.old ≡ length (into_iter_items items.old) }
    requires some { count ≤ length (into_iter_items items.old) }
    requires half { IsHalf count half }
    requires room { vec_len leaves.old + 2 ≤ vec_capacity leaves.old }
    ensures leaves { parts_of leaves.new.items ≡ parts_of leaves.old.items ++ pieces half (take count (into_iter_items items.old)) }
    ensures rest { into_iter_items items.new ≡ drop count (into_iter_items items.old) }
    ensures counted { into_iter_len items.new ≡ length (into_iter_items items.new) }
    ensures len { vec_len leaves.new ≤ vec_len leaves.old + 2 }
    ensures capacity { vec_capacity leaves.new ≡ vec_capacity leaves.old }
{
    let (one, other) = rooms;
    if half == 0 {
        fill_piece(items, count, one, leaves);
    } else {
        fill_piece(items, half, one, leaves);
        fill_piece(items, count - half, other, leaves);
    }
}

/// The number of pairs of some leaves.
///
/// O(n / 32) for n pairs. It allocates nothing and cannot fail.
pub fn pairs_in<K: Key, V: Drop>(leaves: &[Box<LeafNode<K, V>>]) -> usize
    requires { length (joined (parts_of leaves.now)) < 2 ^ 64 }
    ensures { result ≡ length (joined (parts_of leaves.now)) }
{
    let mut count = 0;
    let mut i = 0;
    'leaves: while i < leaves.len() {
        count += leaves[i].len();
        i += 1;
    }
    count
}
