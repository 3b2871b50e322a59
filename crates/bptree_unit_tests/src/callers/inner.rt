//! Callers of an inner node.
ghost use Rattle.std.specs.Prelude.{◌≡◌, ◌<◌, ◌≤◌, ◌+◌, ◌∷◌, ◌++◌, [], List, Some, true, false, length, take, drop, slice_get, vec_len, IfOk};
ghost use Rattle.std.specs.declared.cmp.Ordering.TheVariants.{Less, Equal, Greater};
ghost use Rattle.std.specs.Iterator.{IsFiniteIterable};
ghost use Rattle.std.specs.List.{AllZip};
ghost use Rattle.std.specs.List.Sorted.{IsStrictlySortedBy};
ghost use Rattle.bptree_keys.specs.declared.node_id.NodeId.{NodeId};
ghost use Rattle.bptree_nodes.specs.Inner.{Gives};

use bptree_keys::compares::Compares;
use bptree_keys::key::Key;
use bptree_keys::node_id::NodeId;
use bptree_nodes::inner_node::InnerNode;
use std::alloc::{AllocError, Global};

// A shell that takes its first child, and then an entry, is a node of one key.
fn makes_a_node_of_a_shell<K: Drop, A: Drop>(
    alloc: Global,
    first: (NodeId, A),
    key: K,
    second: (NodeId, A),
) -> Result<Box<InnerNode<K, A>>, AllocError>
    ensures { IfOk result (λ node. node.value ≡ record { keys = key ∷ []; children = first.0 ∷ second.0 ∷ []; arguments = first.1 ∷ second.1 ∷ [] }) }
{
    let mut node = InnerNode::empty(alloc)?;
    node.adopt(first.0, first.1);
    node.push(key, second.0, second.1);
    Ok(node)
}

// A node that is made of vectors has what they hold.
fn shows_what_it_was_made_of<K: Drop, A: Drop>(
    alloc: Global,
    keys: Vec<K>,
    children: Vec<NodeId>,
    arguments: Vec<A>,
) -> Result<Box<InnerNode<K, A>>, AllocError>
    requires keys { vec_len keys ≡ 64 }
    requires children { vec_len children ≡ 65 }
    requires arguments { vec_len arguments ≡ 65 }
    ensures { IfOk result (λ node. (node.value.keys ≡ keys.items) × (node.value.children ≡ children.items) × (node.value.arguments ≡ arguments.items)) }
{
    InnerNode::new(alloc, keys, children, arguments)
}

// A node that is made of iterators has all that they yield, in their order.
fn shows_what_was_given<
    K: Drop,
    A: Drop,
    I: IntoIterator<Item = K> + Drop,
    J: IntoIterator<Item = NodeId> + Drop,
    L: IntoIterator<Item = A> + Drop,
>(alloc: Global, keys: I, childs: J, arguments: L) -> Result<Box<InnerNode<K, A>>, AllocError>
    requires keys { IsFiniteIterable I.into_iter_gives I.IntoIter.can_next I.IntoIter.remaining keys }
    requires childs { IsFiniteIterable J.into_iter_gives J.IntoIter.can_next J.IntoIter.remaining childs }
    requires arguments { IsFiniteIterable L.into_iter_gives L.IntoIter.can_next L.IntoIter.remaining arguments }
    requires counts { (ks : List K) (cs : List NodeId) (xs : List A) → Gives I.into_iter_gives I.IntoIter.next_gives keys ks → Gives J.into_iter_gives J.IntoIter.next_gives childs cs → Gives L.into_iter_gives L.IntoIter.next_gives arguments xs → (length ks ≤ 64) × (length cs ≡ length ks + 1) × (length xs ≡ length ks + 1) }
    ensures { IfOk result (λ node. Gives I.into_iter_gives I.IntoIter.next_gives keys node.value.keys × Gives J.into_iter_gives J.IntoIter.next_gives childs node.value.children × Gives L.into_iter_gives L.IntoIter.next_gives arguments node.value.arguments) }
{
    InnerNode::new_from_iter(alloc, keys, childs, arguments)
}

// Whether a sibling can borrow a key, and whether the node is full: around 16 keys and around 64.
// And how many more keys there is room for.
fn reports_its_bounds<K: Drop, A: Drop>(node: &InnerNode<K, A>) -> ((bool, bool), usize)
    ensures minimum { length node.now.keys ≡ 16 → result.0 ≡ (false, false) }
    ensures above_minimum { length node.now.keys ≡ 17 → result.0 ≡ (true, false) }
    ensures one_free { length node.now.keys ≡ 63 → result.0 ≡ (true, false) }
    ensures full { length node.now.keys ≡ 64 → result.0 ≡ (true, true) }
    ensures room { result.1 + length node.now.keys ≡ 64 }
{
    let room = usize::from(InnerNode::<K, A>::max_capacity()) - node.len();
    ((node.can_spare(), node.is_full()), room)
}

// The keys and the summaries, as slices and each by its index.
fn returns_keys_and_summaries<K: Drop, A: Drop>(node: &InnerNode<K, A>) -> (&[K], &[A])
    ensures keys { result.0.now ≡ node.now.keys }
    ensures arguments { result.1.now ≡ node.now.arguments }
{
    (node.keys(), node.arguments())
}

fn reads_the_second<K: Drop, A: Drop>(node: &InnerNode<K, A>) -> (&K, NodeId)
    requires keys { 1 < length node.now.keys }
    requires children { 1 < length node.now.children }
    ensures key { (first second : K) → (rest : List K) → node.now.keys ≡ first ∷ second ∷ rest → result.0.now ≡ second }
    ensures child { (first second : NodeId) → (rest : List NodeId) → node.now.children ≡ first ∷ second ∷ rest → result.1 ≡ second }
{
    (node.key(1), node.child_id(1))
}

// A key and a summary are replaced, and each call returns the old one.
fn replaces_and_restores<K: Drop, A: Drop>(
    node: &mut InnerNode<K, A>,
    key: K,
    argument: A,
) -> (K, A)
    requires keys { 1 < length node.old.keys }
    requires arguments { 1 < length node.old.arguments }
    ensures key { (first second : K) → (rest : List K) → node.old.keys ≡ first ∷ second ∷ rest → (result.0 ≡ second) × (node.new.keys ≡ first ∷ key ∷ rest) }
    ensures argument { (first second : A) → (rest : List A) → node.old.arguments ≡ first ∷ second ∷ rest → (result.1 ≡ second) × (node.new.arguments ≡ first ∷ argument ∷ rest) }
    ensures children { node.new.children ≡ node.old.children }
{
    let old = node.set_key(1, key);
    (old, node.set_argument(1, argument))
}

// An entry that is inserted behind the first child is there with its child and its summary.
fn puts_behind_the_first_child<K: Drop, A: Drop>(
    node: &mut InnerNode<K, A>,
    key: K,
    child: NodeId,
    argument: A,
)
    requires node { 0 < length node.old.children }
    requires room { length node.old.keys < 64 }
    ensures keys { node.new.keys ≡ key ∷ node.old.keys }
    ensures children { (first : NodeId) → (rest : List NodeId) → node.old.children ≡ first ∷ rest → node.new.children ≡ first ∷ child ∷ rest }
    ensures arguments { (first : A) → (rest : List A) → node.old.arguments ≡ first ∷ rest → node.new.arguments ≡ first ∷ argument ∷ rest }
{
    node.insert_at(0, key, child, argument);
}

// Removing an entry that was inserted returns the entry, and leaves the node as before.
fn takes_an_insertion_back<K: Drop, A: Drop>(
    node: &mut InnerNode<K, A>,
    slot: usize,
    key: K,
    child: NodeId,
    argument: A,
) -> (K, NodeId, A)
    requires node { 0 < length node.old.children }
    requires room { length node.old.keys < 64 }
    requires within { slot ≤ length node.old.keys }
    ensures entry { result ≡ (key, child, argument) }
    ensures keys { node.new.keys ≡ node.old.keys }
    ensures children { node.new.children ≡ node.old.children }
    ensures arguments { node.new.arguments ≡ node.old.arguments }
{
    node.recall();
    node.insert_at(slot, key, child, argument);
    node.remove_at(slot)
}

// Popping at an end returns what was pushed there, and leaves the node as before.
#[tactic(auto, using(crate::proofs::Ends::last_back))]
fn pops_what_was_pushed<K: Drop, A: Drop>(
    node: &mut InnerNode<K, A>,
    key: K,
    child: NodeId,
    argument: A,
) -> (K, NodeId, A)
    requires node { 0 < length node.old.children }
    requires room { length node.old.keys < 64 }
    ensures entry { result ≡ (key, child, argument) }
    ensures keys { node.new.keys ≡ node.old.keys }
    ensures children { node.new.children ≡ node.old.children }
    ensures arguments { node.new.arguments ≡ node.old.arguments }
{
    node.push(key, child, argument);
    node.pop()
}

fn pops_what_was_pushed_in_front<K: Drop, A: Drop>(
    node: &mut InnerNode<K, A>,
    key: K,
    child: NodeId,
    argument: A,
) -> (K, NodeId, A)
    requires node { 0 < length node.old.children }
    requires room { length node.old.keys < 64 }
    ensures entry { result ≡ (key, child, argument) }
    ensures keys { node.new.keys ≡ node.old.keys }
    ensures children { node.new.children ≡ node.old.children }
    ensures arguments { node.new.arguments ≡ node.old.arguments }
{
    node.push_front(key, child, argument);
    node.pop_front()
}

// A full node is split: each part has 32 keys, and the key between the parts is promoted. A new key
// in the middle is the promoted one, and one at an end is not.
fn splits_at_a_new_key<K: Drop, A: Drop>(
    node: &mut InnerNode<K, A>,
    slot: usize,
    key: K,
    child: NodeId,
    argument: A,
    room: Box<InnerNode<K, A>>,
) -> (usize, K, usize)
    requires full { length node.old.keys ≡ 64 }
    requires within { slot ≤ 64 }
    requires shell { room.value.children ≡ [] }
    ensures sizes { (result.0 ≡ 32) × (result.2 ≡ 32) }
    ensures first { slot ≡ 0 → slice_get node.old.keys 31 ≡ Some result.1 }
    ensures middle { slot ≡ 32 → result.1 ≡ key }
    ensures last { slot ≡ 64 → slice_get node.old.keys 32 ≡ Some result.1 }
    ensures child { slot ≡ 0 → slice_get node.new.children 1 ≡ Some child }
{
    let (promoted, right) = node.split(slot, key, child, argument, room);
    (node.len(), promoted, right.len())
}

// Undoing a split leaves the node as it was, and returns the entry.
fn takes_a_split_back<K: Drop, A: Drop>(
    node: &mut InnerNode<K, A>,
    slot: usize,
    key: K,
    child: NodeId,
    argument: A,
    room: Box<InnerNode<K, A>>,
) -> (K, NodeId, A)
    requires full { length node.old.keys ≡ 64 }
    requires within { slot ≤ 64 }
    requires shell { room.value.children ≡ [] }
    ensures entry { result ≡ (key, child, argument) }
    ensures node { node.new ≡ node.old }
{
    node.recall();
    let (promoted, right) = node.split(slot, key, child, argument, room);
    node.undo_split(slot, promoted, right)
}

// A node that is split off, and then merged with the key that was between, is as it was.
fn merges_what_was_cut<K: Drop, A: Drop>(
    node: &mut InnerNode<K, A>,
    index: usize,
    room: Box<InnerNode<K, A>>,
)
    requires within { (0 < index) × (index ≤ length node.old.keys) }
    requires shell { room.value.children ≡ [] }
    ensures keys { node.new.keys ≡ node.old.keys }
    ensures children { node.new.children ≡ node.old.children }
    ensures arguments { node.new.arguments ≡ node.old.arguments }
{
    node.recall();
    let (between, right) = node.split_off(index, room);
    node.recall();
    right.recall();
    node.merge_next(between, right);
}

// The last child of a node becomes the first of the next node. Its key moves up, and the key
// between the nodes moves down with it.
#[tactic(auto, using(crate::proofs::Ends::last_moves, crate::proofs::Ends::last_turns))]
fn returns_its_last<K: Drop, A: Drop>(
    node: &mut InnerNode<K, A>,
    key: K,
    right: &mut InnerNode<K, A>,
) -> K
    requires some { 0 < length node.old.keys }
    requires next { 0 < length right.old.children }
    requires room { length right.old.keys < 64 }
    ensures keys { (front : List K) → (last : K) → node.old.keys ≡ front ++ last ∷ [] → (node.new.keys ≡ front) × (result ≡ last) × (right.new.keys ≡ key ∷ right.old.keys) }
    ensures children { (front : List NodeId) → (last : NodeId) → node.old.children ≡ front ++ last ∷ [] → (node.new.children ≡ front) × (right.new.children ≡ last ∷ right.old.children) }
    ensures arguments { (front : List A) → (last : A) → node.old.arguments ≡ front ++ last ∷ [] → (node.new.arguments ≡ front) × (right.new.arguments ≡ last ∷ right.old.arguments) }
{
    node.rotate_right(key, right)
}

// The first child of the next node becomes the last of this one, with the key that was between.
fn takes_the_first_of_the_next<K: Drop, A: Drop>(
    node: &mut InnerNode<K, A>,
    key: K,
    right: &mut InnerNode<K, A>,
) -> K
    requires some { 0 < length right.old.keys }
    requires node { 0 < length node.old.children }
    requires room { length node.old.keys < 64 }
    ensures keys { (node.new.keys ≡ node.old.keys ++ key ∷ []) × (right.old.keys ≡ result ∷ right.new.keys) }
    ensures children { (node.new.children ≡ node.old.children ++ take 1 right.old.children) × (right.new.children ≡ drop 1 right.old.children) }
    ensures arguments { (node.new.arguments ≡ node.old.arguments ++ take 1 right.old.arguments) × (right.new.arguments ≡ drop 1 right.old.arguments) }
{
    node.rotate_left(key, right)
}

// Splitting off what was appended returns the key between, and leaves both nodes as before.
#[tactic(auto, using(crate::proofs::Ends::handed_over))]
fn returns_what_it_took<K: Drop, A: Drop>(
    node: &mut InnerNode<K, A>,
    key: K,
    right: &mut InnerNode<K, A>,
) -> K
    requires node { 0 < length node.old.children }
    requires right { 0 < length right.old.children }
    requires fits { length node.old.keys + length right.old.keys < 64 }
    ensures key { result ≡ key }
    ensures node { node.new ≡ node.old }
    ensures keys { right.new.keys ≡ right.old.keys }
    ensures children { right.new.children ≡ right.old.children }
    ensures arguments { right.new.arguments ≡ right.old.arguments }
{
    let kept = node.len();
    right.recall();
    node.append_node(key, right);
    node.move_tail_to(kept + 1, right)
}

// The child for a key among two separators is behind an equal one, and before a greater one. The
// search that counts its comparisons finds the same child.
fn goes_behind_an_equal_key<K: Key + Drop, A: Drop>(
    node: &InnerNode<K, A>,
    key: &K,
) -> ((usize, NodeId), NodeId, usize)
    requires node { 0 < length node.now.children }
    requires ascending { IsStrictlySortedBy K.cmp node.now.keys }
    ensures before { (x y : K) → node.now.keys ≡ x ∷ y ∷ [] → K.cmp x key.now ≡ Greater → K.cmp y key.now ≡ Greater → result.0.0 ≡ 0 }
    ensures equal { (x y : K) → node.now.keys ≡ x ∷ y ∷ [] → K.cmp x key.now ≡ Equal → K.cmp y key.now ≡ Greater → result.0.0 ≡ 1 }
    ensures behind { (x y : K) → node.now.keys ≡ x ∷ y ∷ [] → K.cmp x key.now ≡ Less → K.cmp y key.now ≡ Less → result.0.0 ≡ 2 }
    ensures child { slice_get node.now.children result.0.0 ≡ Some result.0.1 }
    ensures counted { (x y : K) → node.now.keys ≡ x ∷ y ∷ [] → K.cmp x key.now ≡ Equal → K.cmp y key.now ≡ Greater → slice_get node.now.children 1 ≡ Some result.1 }
    ensures count { result.2 ≤ 7 }
{
    let mut compares = Compares::new();
    let counted = node.locate_child_counted(key, &mut compares).1;
    (node.locate_child(key), counted, compares.count())
}

// A clone has the same children, and clones of the keys and summaries in their order.
fn clones_keys_and_summaries<K: Clone + Drop, A: Clone + Drop>(
    node: &InnerNode<K, A>,
) -> Result<InnerNode<K, A>, AllocError>
    ensures { IfOk result (λ copy. (copy.children ≡ node.now.children) × AllZip K.is_clone node.now.keys copy.keys × AllZip A.is_clone node.now.arguments copy.arguments) }
{
    node.clone()
}
