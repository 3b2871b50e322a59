//! Callers of a leaf.
ghost use Rattle.std.specs.Prelude.{◌≡◌, ◌==◌, ◌<◌, ◌≤◌, ◌+◌, ◌-◌, ◌/◌, ◌∷◌, ◌++◌, [], ℕ, List, Ok, Err, Some, None, true, false, length, take, drop, slice_get, IfOk, IfSome, IsSomeAnd, option_copied};
ghost use Rattle.std.specs.declared.cmp.Ordering.TheVariants.{Less, Equal, Greater};
ghost use Rattle.std.specs.List.{AllZip};
ghost use Rattle.std.specs.Iterator.{Yields, YieldsThen};
ghost use Rattle.std.specs.Vec.Iter.{into_iter_items};
ghost use Rattle.bptree_keys.specs.Contents.{IsAscending, below, has, value as value_of, put};
ghost use Rattle.bptree_keys.specs.declared.node_id.LeafNodeId.{LeafNodeId};

use bptree_keys::compares::{Compares, SearchHint};
use bptree_keys::node_id::LeafNodeId;
use bptree_nodes::leaf_node::LeafNode;
use std::alloc::{AllocError, Global};
use std::cmp::Ordering;
use std::vec::IntoIter;

// A new leaf has no pairs and no neighbours.
fn starts_empty<K: Drop, V: Drop>(
    alloc: Global,
) -> Result<(usize, Option<LeafNodeId>, Option<LeafNodeId>), AllocError>
    ensures { IfOk result (λ shown. shown ≡ (0, None, None)) }
{
    let leaf = LeafNode::<K, V>::new(alloc)?;
    Ok((leaf.len(), leaf.prev(), leaf.next()))
}

// Whether a leaf is at its minimum, whether a sibling can borrow a pair, and whether the leaf is
// full: around 16 pairs and around 64. And how many more pairs there is room for.
fn reports_its_bounds<K: Drop, V: Drop>(leaf: &LeafNode<K, V>) -> ((bool, bool, bool), usize)
    ensures below_minimum { length leaf.now.pairs ≡ 15 → result.0 ≡ (false, false, false) }
    ensures minimum { length leaf.now.pairs ≡ 16 → result.0 ≡ (true, false, false) }
    ensures above_minimum { length leaf.now.pairs ≡ 17 → result.0 ≡ (false, true, false) }
    ensures one_free { length leaf.now.pairs ≡ 63 → result.0 ≡ (false, true, false) }
    ensures full { length leaf.now.pairs ≡ 64 → result.0 ≡ (false, true, true) }
    ensures room { result.1 + length leaf.now.pairs ≡ 64 }
{
    let room = usize::from(LeafNode::<K, V>::max_capacity()) - leaf.len();
    (
        (leaf.is_size_minimum(), leaf.can_spare(), leaf.is_full()),
        room,
    )
}

// Each link is set without changing the other, and the pairs stay.
fn sets_links<K: Drop, V: Drop>(
    leaf: &mut LeafNode<K, V>,
    prev: Option<LeafNodeId>,
    next: Option<LeafNodeId>,
) -> (Option<LeafNodeId>, Option<LeafNodeId>)
    ensures shown { result ≡ (prev, next) }
    ensures after { leaf.new ≡ record leaf.old { prev = prev; next = next } }
{
    leaf.set_prev(prev);
    leaf.set_next(next);
    (leaf.prev(), leaf.next())
}

// A leaf without neighbours is in range of every key. An empty leaf with a neighbour is in range of
// no key. If a leaf has a neighbour, its key at that end is in range, and a key past that end is
// not.
fn is_in_range_of<K: Ord + Drop, V: Drop>(leaf: &LeafNode<K, V>, key: &K) -> bool
    ensures alone { leaf.now.prev ≡ None → leaf.now.next ≡ None → result ≡ true }
    ensures empty { (before : LeafNodeId) → leaf.now.prev ≡ Some before → leaf.now.pairs ≡ [] → result ≡ false }
    ensures below_first { (before : LeafNodeId) → (pair : K × V) → leaf.now.prev ≡ Some before → leaf.now.pairs ≡ pair ∷ [] → K.cmp key.now pair.0 ≡ Less → result ≡ false }
    ensures at_first { (before : LeafNodeId) → (pair : K × V) → leaf.now.prev ≡ Some before → leaf.now.next ≡ None → leaf.now.pairs ≡ pair ∷ [] → K.cmp key.now pair.0 ≡ Equal → result ≡ true }
    ensures above_last { (after : LeafNodeId) → (pair : K × V) → leaf.now.prev ≡ None → leaf.now.next ≡ Some after → leaf.now.pairs ≡ pair ∷ [] → K.cmp key.now pair.0 ≡ Greater → result ≡ false }
    ensures at_last { (after : LeafNodeId) → (pair : K × V) → leaf.now.prev ≡ None → leaf.now.next ≡ Some after → leaf.now.pairs ≡ pair ∷ [] → K.cmp key.now pair.0 ≡ Equal → result ≡ true }
{
    leaf.in_range(key)
}

// The ends of a leaf of two pairs: a clone of the key at each end with a neighbour, and `None`
// otherwise.
fn shows_its_ends<K: Clone + Drop, V: Drop>(
    leaf: &LeafNode<K, V>,
) -> Result<(Option<K>, Option<K>), AllocError>
    requires { 0 < length leaf.now.pairs }
    ensures first { (before : LeafNodeId) → (first last : K × V) → leaf.now.prev ≡ Some before → leaf.now.pairs ≡ first ∷ last ∷ [] → IfOk result (λ ends. IsSomeAnd ends.0 (λ key. K.is_clone first.0 key)) }
    ensures last { (after : LeafNodeId) → (first last : K × V) → leaf.now.next ≡ Some after → leaf.now.pairs ≡ first ∷ last ∷ [] → IfOk result (λ ends. IsSomeAnd ends.1 (λ key. K.is_clone last.0 key)) }
    ensures none { IfOk result (λ ends. (leaf.now.prev ≡ None → ends.0 ≡ None) × (leaf.now.next ≡ None → ends.1 ≡ None)) }
{
    leaf.key_range()
}

// A new leaf takes 64 items and leaves the others, or takes all if there are fewer.
fn fills_a_new_leaf<K: Drop, V: Drop, I: Iterator<Item = (K, V)>>(
    alloc: Global,
    items: &mut I,
) -> Result<Box<LeafNode<K, V>>, AllocError>
    requires { I.can_next items.old }
    ensures { IfOk result (λ leaf. (length leaf.value.pairs ≡ 64 → Yields I.next_gives items.old leaf.value.pairs items.new) × (length leaf.value.pairs < 64 → YieldsThen I.next_gives items.old leaf.value.pairs None items.new) × (leaf.value.prev ≡ None) × (leaf.value.next ≡ None)) }
{
    let mut leaf = LeafNode::new(alloc)?;
    leaf.set_data(items);
    Ok(leaf)
}

// A new leaf takes the first `count` items, and leaves the others.
fn fills_with_some<K: Drop, V: Drop>(
    alloc: Global,
    items: Vec<(K, V)>,
    count: usize,
) -> Result<(Box<LeafNode<K, V>>, IntoIter<(K, V)>), AllocError>
    requires { (count ≤ 64) × (count ≤ length items.items) }
    ensures { IfOk result (λ done. (done.0.value.pairs ≡ take count items.items) × (into_iter_items done.1 ≡ drop count items.items) × (done.0.value.prev ≡ None) × (done.0.value.next ≡ None)) }
{
    let mut leaf = LeafNode::new(alloc)?;
    let mut left = items.into_iter();
    leaf.fill_from(&mut left, count);
    Ok((leaf, left))
}

// The second pair, and `None` for a second pair of a leaf of one.
fn reads_the_second<K: Drop, V: Drop>(leaf: &LeafNode<K, V>) -> (&K, &V)
    requires { 1 < length leaf.now.pairs }
    ensures { (first second : K × V) → (rest : List (K × V)) → leaf.now.pairs ≡ first ∷ second ∷ rest → (result.0.now ≡ second.0) × (result.1.now ≡ second.1) }
{
    leaf.data_at(1)
}

fn tries_the_second<K: Drop, V: Drop>(leaf: &LeafNode<K, V>) -> Option<(&K, &V)>
    ensures there { (first second : K × V) → (rest : List (K × V)) → leaf.now.pairs ≡ first ∷ second ∷ rest → IsSomeAnd result (λ pair. (pair.0.now ≡ second.0) × (pair.1.now ≡ second.1)) }
    ensures past { (first : K × V) → leaf.now.pairs ≡ first ∷ [] → result ≡ None }
{
    leaf.try_data_at(1)
}

// The keys and the values are in the order of the pairs.
fn returns_keys_and_values<K: Drop, V: Drop>(leaf: &LeafNode<K, V>) -> (&[K], &[V])
    ensures { (first second : K × V) → leaf.now.pairs ≡ first ∷ second ∷ [] → (result.0.now ≡ first.0 ∷ second.0 ∷ []) × (result.1.now ≡ first.1 ∷ second.1 ∷ []) }
{
    (leaf.keys(), leaf.values())
}

// A value that is written is beside its key, and every other pair stays.
fn writes_the_second<K: Drop, V: Drop>(leaf: &mut LeafNode<K, V>, value: V)
    requires { 1 < length leaf.old.pairs }
    ensures { (first second : K × V) → (rest : List (K × V)) → leaf.old.pairs ≡ first ∷ second ∷ rest → leaf.new ≡ record leaf.old { pairs = first ∷ (second.0, value) ∷ rest } }
{
    *leaf.value_at_mut(1) = value;
}

fn replaces_the_second<K: Drop, V: Drop>(leaf: &mut LeafNode<K, V>, value: V) -> V
    requires { 1 < length leaf.old.pairs }
    ensures { (first second : K × V) → (rest : List (K × V)) → leaf.old.pairs ≡ first ∷ second ∷ rest → (result ≡ second.1) × (leaf.new ≡ record leaf.old { pairs = first ∷ (second.0, value) ∷ rest }) }
{
    leaf.replace_value(1, value)
}

// A search that finds a key finds an equal one, in whatever order the pairs are.
fn finds_an_equal_key<K: Ord + Drop, V: Drop>(leaf: &LeafNode<K, V>, key: &K) -> Option<Ordering>
    ensures { IfSome result (λ order. order ≡ Equal) }
{
    match leaf.locate_slot(key) {
        Ok(slot) => Some(leaf.data_at(slot).0.cmp(key)),
        Err(_) => None,
    }
}

// If a search of an ascending leaf finds no key, the key is absent, and the slot is the number of
// smaller keys. The search that counts its comparisons returns the same, after at most seven.
fn counts_smaller_keys<K: Ord + Drop, V: Drop>(
    leaf: &LeafNode<K, V>,
    key: &K,
) -> (Option<usize>, Option<usize>, usize)
    requires { IsAscending K.cmp leaf.now.pairs }
    ensures absent { IfSome result.0 (λ _. has K.cmp leaf.now.pairs key.now ≡ false) }
    ensures index { IfSome result.0 (λ index. index ≡ length (below K.cmp leaf.now.pairs key.now)) }
    ensures counted { IfSome result.1 (λ index. index ≡ length (below K.cmp leaf.now.pairs key.now)) }
    ensures count { result.2 ≤ 7 }
{
    let mut compares = Compares::new();
    let counted = leaf
        .locate_slot_counted(key, SearchHint::Near, &mut compares)
        .err();
    (leaf.locate_slot(key).err(), counted, compares.count())
}

// The value of a key, or `None`, without and with the comparisons counted.
fn reads_the_value<'a, K: Ord + Drop, V: Drop>(
    leaf: &'a LeafNode<K, V>,
    key: &K,
) -> (Option<&'a V>, Option<&'a V>, usize)
    requires { IsAscending K.cmp leaf.now.pairs }
    ensures value { option_copied result.0 ≡ value_of K.cmp leaf.now.pairs key.now }
    ensures counted { option_copied result.1 ≡ value_of K.cmp leaf.now.pairs key.now }
    ensures count { result.2 ≤ 7 }
{
    let mut compares = Compares::new();
    let counted = leaf
        .locate_slot_with_value_counted(key, SearchHint::Near, &mut compares)
        .1;
    let value = leaf.locate_slot_with_value(key).1;
    (value, counted, compares.count())
}

// The test of whether a key is in range takes at most two comparisons.
fn reports_its_range_in_two<K: Ord + Drop, V: Drop>(leaf: &LeafNode<K, V>, key: &K) -> (bool, usize)
    ensures same { result.0 ≡ true }
    ensures count { result.1 ≤ 2 }
{
    let mut compares = Compares::new();
    let within = leaf.in_range_counted(key, &mut compares);
    (within == leaf.in_range(key), compares.count())
}

// Removing a pair that was inserted at a slot returns the pair, and leaves the leaf as before.
#[tactic(auto, using(bptree_nodes::proofs::Inverses::delete_inserted))]
fn takes_an_insertion_back<K: Drop, V: Drop>(
    leaf: &mut LeafNode<K, V>,
    slot: usize,
    key: K,
    value: V,
) -> (K, V)
    requires within { slot ≤ length leaf.old.pairs }
    requires room { length leaf.old.pairs < 64 }
    ensures pair { result ≡ (key, value) }
    ensures leaf { leaf.new ≡ leaf.old }
{
    leaf.insert_at(slot, key, value);
    leaf.delete_at(slot)
}

// A pair that is pushed is behind all others, which stay.
fn pushes_behind_all<K: Drop, V: Drop>(leaf: &mut LeafNode<K, V>, key: K, value: V) -> usize
    requires { length leaf.old.pairs < 64 }
    ensures there { slice_get leaf.new.pairs result ≡ Some (key, value) }
    ensures others { take result leaf.new.pairs ≡ leaf.old.pairs }
    ensures len { length leaf.new.pairs ≡ result + 1 }
{
    let index = leaf.len();
    leaf.push(key, value);
    index
}

// Popping the last pair returns it, and leaves the pairs before it.
#[tactic(auto, using(bptree_nodes::proofs::Pairs::last_apart))]
fn pops_the_last<K: Drop, V: Drop>(leaf: &mut LeafNode<K, V>) -> (K, V)
    requires { 0 < length leaf.old.pairs }
    ensures pair { slice_get leaf.old.pairs (length leaf.old.pairs - 1) ≡ Some result }
    ensures leaf { leaf.new ≡ record leaf.old { pairs = take (length leaf.old.pairs - 1) leaf.old.pairs } }
{
    leaf.pop()
}

// Popping the first pair returns it, and leaves the pairs behind it.
fn pops_the_first<K: Drop, V: Drop>(leaf: &mut LeafNode<K, V>) -> (K, V)
    requires { 0 < length leaf.old.pairs }
    ensures { (first : K × V) → (rest : List (K × V)) → leaf.old.pairs ≡ first ∷ rest → (result ≡ first) × (leaf.new ≡ record leaf.old { pairs = rest }) }
{
    leaf.pop_front()
}

// A leaf that is split off keeps its own links, and merging restores its pairs.
fn merges_what_was_cut<K: Drop, V: Drop>(
    leaf: &mut LeafNode<K, V>,
    slot: usize,
    room: Box<LeafNode<K, V>>,
)
    requires within { slot ≤ length leaf.old.pairs }
    requires empty { room.value.pairs ≡ [] }
    ensures pairs { leaf.new.pairs ≡ leaf.old.pairs }
    ensures prev { leaf.new.prev ≡ leaf.old.prev }
    ensures next { leaf.new.next ≡ room.value.next }
{
    let right = leaf.split_off(slot, room);
    leaf.merge_right(right);
}

// Merging two leaves without the first pair of the later one.
fn merges_but_for_one<K: Drop, V: Drop>(
    leaf: &mut LeafNode<K, V>,
    right: Box<LeafNode<K, V>>,
) -> (K, V)
    requires some { 0 < length right.value.pairs }
    requires room { length leaf.old.pairs + length right.value.pairs ≤ 65 }
    ensures pairs { (first : K × V) → (rest : List (K × V)) → right.value.pairs ≡ first ∷ rest → (result ≡ first) × (leaf.new.pairs ≡ leaf.old.pairs ++ rest) }
    ensures next { leaf.new.next ≡ right.value.next }
{
    leaf.merge_right_delete_first(0, right)
}

// A full leaf that is split at any slot: the number of pairs of each part, and the links from left
// to right.
fn links_a_split<K: Drop, V: Drop>(
    leaf: &mut LeafNode<K, V>,
    slot: usize,
    item: (K, V),
    ids: (LeafNodeId, LeafNodeId),
    room: Box<LeafNode<K, V>>,
) -> (usize, usize, Box<LeafNode<K, V>>)
    requires full { length leaf.old.pairs ≡ 64 }
    requires within { slot ≤ 64 }
    requires empty { room.value.pairs ≡ [] }
    ensures before_middle { slot ≡ 31 → (result.0 ≡ 33) × (result.1 ≡ 32) }
    ensures middle { slot ≡ 32 → (result.0 ≡ 32) × (result.1 ≡ 33) }
    ensures left { (leaf.new.prev ≡ leaf.old.prev) × (leaf.new.next ≡ Some ids.1) }
    ensures right { (result.2.value.prev ≡ Some ids.0) × (result.2.value.next ≡ leaf.old.next) }
{
    let right = leaf.split_new_leaf(slot, item, ids.1, ids.0, room);
    (leaf.len(), right.len(), right)
}

// Undoing a split leaves the leaf as it was, and returns the item.
fn takes_a_split_back<K: Drop, V: Drop>(
    leaf: &mut LeafNode<K, V>,
    slot: usize,
    item: (K, V),
    ids: (LeafNodeId, LeafNodeId),
    room: Box<LeafNode<K, V>>,
) -> (K, V)
    requires full { length leaf.old.pairs ≡ 64 }
    requires within { slot ≤ 64 }
    requires empty { room.value.pairs ≡ [] }
    ensures item { result ≡ item }
    ensures leaf { leaf.new ≡ leaf.old }
{
    let right = leaf.split_new_leaf(slot, item, ids.1, ids.0, room);
    leaf.undo_split(slot, right)
}

// Splitting off what was appended leaves both leaves with the pairs that they had, and `right` with
// its links.
fn returns_what_it_took<K: Drop, V: Drop>(leaf: &mut LeafNode<K, V>, right: &mut LeafNode<K, V>)
    requires { length leaf.old.pairs + length right.old.pairs ≤ 64 }
    ensures left { leaf.new ≡ record leaf.old { next = right.old.next } }
    ensures right { right.new ≡ right.old }
{
    let kept = leaf.len();
    leaf.append_node(right);
    leaf.move_tail_to(kept, right);
}

// Pairs that move to the leaf behind and back leave both leaves as they were.
fn returns_what_it_was_given<K: Drop, V: Drop>(
    left: &mut LeafNode<K, V>,
    right: &mut LeafNode<K, V>,
    count: usize,
)
    requires within { count ≤ length left.old.pairs }
    requires room { length right.old.pairs + count ≤ 64 }
    ensures { (left.new ≡ left.old) × (right.new ≡ right.old) }
{
    left.recall();
    left.move_last_to(count, right);
    right.move_first_to(count, left);
}

// The first pair of a leaf moves behind the last one of the leaf before it.
fn gives_its_first<K: Drop, V: Drop>(
    left: &mut LeafNode<K, V>,
    right: &mut LeafNode<K, V>,
) -> (K, V)
    requires some { 0 < length right.old.pairs }
    requires room { length left.old.pairs < 64 }
    ensures pair { right.old.pairs ≡ result ∷ right.new.pairs }
    ensures left { left.new ≡ left.old }
{
    right.move_first_to(1, left);
    left.pop()
}

// The last pair of a reversed leaf was the first one, and a leaf that is reversed twice is unchanged.
fn takes_the_first<K: Drop, V: Drop>(leaf: &mut LeafNode<K, V>) -> (K, V)
    requires { 0 < length leaf.old.pairs }
    ensures { leaf.old.pairs ≡ result ∷ leaf.new.pairs }
{
    leaf.reverse();
    let pair = leaf.pop();
    leaf.reverse();
    pair
}

// No pair stays for which the closure returns false.
fn loses_each_pair<K: Drop, V: Drop>(leaf: &mut LeafNode<K, V>)
    ensures { leaf.new.pairs ≡ [] }
{
    leaf.retain(|_: &K, _: &mut V| false);
}

// Each pair stays for which the closure returns true, in its order.
fn loses_no_pair<K: Drop, V: Drop>(leaf: &mut LeafNode<K, V>)
    ensures { leaf.new.pairs ≡ leaf.old.pairs }
{
    leaf.retain(|_: &K, _: &mut V| true);
}

// A closure that is called for the first pair changes that value, and no other pair and no link. Its
// result is that of the call.
fn halves_the_first<K: Drop>(leaf: &mut LeafNode<K, u64>) -> bool
    requires { 0 < length leaf.old.pairs }
    ensures { (key : K) (value : ℕ) (rest : List (K × ℕ)) → leaf.old.pairs ≡ (key, value) ∷ rest → (leaf.new ≡ record leaf.old { pairs = (key, value / 2) ∷ rest }) × (result ≡ (value == 7)) }
{
    let (stays, _) = leaf.call_at(0, |_: &K, value: &mut u64| {
        let is_seven = *value == 7;
        *value /= 2;
        is_seven
    });
    stays
}

// A clone has the same links, and clones of the pairs in their order.
fn clones_pairs_and_links<K: Clone + Drop, V: Clone + Drop>(
    leaf: &LeafNode<K, V>,
) -> Result<LeafNode<K, V>, AllocError>
    ensures { IfOk result (λ copy. (copy.prev ≡ leaf.now.prev) × (copy.next ≡ leaf.now.next) × AllZip (λ p q. K.is_clone p.0 q.0 × V.is_clone p.1 q.1) leaf.now.pairs copy.pairs) }
{
    leaf.clone()
}
