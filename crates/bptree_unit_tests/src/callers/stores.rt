//! Proved callers of any store. What each of them ensures follows from the contracts of the
//! functions that it calls.
ghost use Rattle.std.specs.Prelude.{◌≡◌, ◌≢◌, ◌<◌, ◌≤◌, ◌∷◌, [], ℕ, true, false, length, slice_set, IfOk, IfSome, IsSome, MatchResult};
ghost use Rattle.bptree_nodes.specs.Clones.{IsInnerClone, IsLeafClone};
ghost use Rattle.bptree_nodes.specs.Inner.{Inner};
ghost use Rattle.bptree_nodes.specs.Leaf.{Leaf};
ghost use Rattle.bptree_nodes.specs.Slot.{Free, Held, Present, IsPresent};
ghost use Rattle.bptree_stores.specs.Clones.{IsSlotClone};

use bptree_arguments::argument::Argument;
use bptree_keys::compares::Compares;
use bptree_keys::key::Key;
use bptree_keys::node_id::{InnerNodeId, LeafNodeId};
use bptree_nodes::inner_node::InnerNode;
use bptree_nodes::leaf_node::LeafNode;
use bptree_stores::node_store_vec::NodeStoreVec;
use bptree_stores::node_stores::{
    CloneStore, NodeStore, add_inner, inner_n, leaf_n, new_empty_leaf,
};
use std::alloc::{AllocError, Global};

// A new store has no node under any id, and reports that it is empty.
fn starts_empty<S: NodeStore>(alloc: Global) -> (S, bool)
    ensures inner { (number : ℕ) → (S.slots result.0).inner number ≡ Free }
    ensures leaves { (number : ℕ) → (S.slots result.0).leaf number ≡ Free }
    ensures says { result.1 ≡ true }
{
    let store = S::empty(alloc);
    let says = store.is_empty();
    (store, says)
}

// A new store over slabs reports that it is empty, with capacity or, if its allocation fails,
// without.
fn says_that_it_is_empty<K: Key, V: Drop, A: Argument<K>>(alloc: Global, capacity: usize) -> bool
    ensures { result ≡ true }
{
    match NodeStoreVec::<K, V, A>::with_capacity(alloc, capacity) {
        Ok(roomy) => roomy.is_empty(),
        Err(_) => NodeStoreVec::<K, V, A>::new(alloc).is_empty(),
    }
}

// A single reserved id of either kind makes a store not empty.
fn is_not_empty_with_a_held_number<S: NodeStore>(store: &S) -> bool
    ensures inner { (number : ℕ) → (S.slots store.now).inner number ≡ Held → result ≡ false }
    ensures leaf { (number : ℕ) → (S.slots store.now).leaf number ≡ Held → result ≡ false }
{
    store.is_empty()
}

// The greatest sizes of the nodes.
fn knows_the_sizes<S: NodeStore>() -> (u16, u16)
    ensures { result ≡ (64, 64) }
{
    (inner_n::<S>(), leaf_n::<S>())
}

// A new node gets an id other than a reserved one, which stays reserved. A failure returns the
// node.
fn adds_beside_a_held_number<S: NodeStore>(
    store: &mut S,
    node: Box<InnerNode<S::K, S::Argument>>,
    held: InnerNodeId,
) -> Result<InnerNodeId, Box<InnerNode<S::K, S::Argument>>>
    requires { (S.slots store.old).inner held.0 ≡ Held }
    ensures added { MatchResult result (λ id. (id.0 ≢ held.0) × ((S.slots store.new).inner id.0 ≡ Present node.value)) (λ back. back ≡ node) }
    ensures others { ((S.slots store.new).inner held.0 ≡ Held) × ((S.slots store.new).leaf ≡ (S.slots store.old).leaf) }
{
    add_inner(store, node)
}

/// Reserves two ids for inner nodes, which differ. Returns `None` if an allocation fails.
pub fn holds_two_inner_nodes<S: NodeStore>(store: &mut S) -> Option<(InnerNodeId, InnerNodeId)>
    ensures apart { IfSome result (λ ids. ids.0.0 ≢ ids.1.0) }
    ensures held { IfSome result (λ ids. ((S.slots store.new).inner ids.0.0 ≡ Held) × ((S.slots store.new).inner ids.1.0 ≡ Held)) }
{
    let Ok(first) = store.reserve_inner() else {
        return None;
    };
    let Ok(second) = store.reserve_inner() else {
        return None;
    };
    Some((first, second))
}

/// Reserves two ids for leaves, which differ. Returns `None` if an allocation fails.
pub fn holds_two_leaves<S: NodeStore>(store: &mut S) -> Option<(LeafNodeId, LeafNodeId)>
    ensures apart { IfSome result (λ ids. ids.0.0 ≢ ids.1.0) }
    ensures held { IfSome result (λ ids. ((S.slots store.new).leaf ids.0.0 ≡ Held) × ((S.slots store.new).leaf ids.1.0 ≡ Held)) }
{
    let Ok(first) = store.reserve_leaf() else {
        return None;
    };
    let Ok(second) = store.reserve_leaf() else {
        return None;
    };
    Some((first, second))
}

/// Takes an id of an inner node through all its states. The node comes back, the id is free as
/// before, and all other ids are unchanged.
pub fn walks_an_inner_number<S: NodeStore>(
    store: &mut S,
    node: Box<InnerNode<S::K, S::Argument>>,
) -> Result<(InnerNodeId, Box<InnerNode<S::K, S::Argument>>), AllocError>
    ensures walked { MatchResult result (λ walked. (walked.1.value ≡ node.value) × ((S.slots store.old).inner walked.0.0 ≡ Free) × ((S.slots store.new).inner walked.0.0 ≡ Free) × ((other : ℕ) → other ≢ walked.0.0 → (S.slots store.new).inner other ≡ (S.slots store.old).inner other)) (λ _. S.slots store.new ≡ S.slots store.old) }
    ensures leaves { (S.slots store.new).leaf ≡ (S.slots store.old).leaf }
{
    let id = store.reserve_inner()?;
    store.put_back_inner(id, node);
    let node = store.take_inner(id);
    store.release_inner(id);
    Ok((id, node))
}

/// Takes an id of a leaf through all its states. The leaf comes back, the id is free as before, and
/// all other ids are unchanged.
pub fn walks_a_leaf_number<S: NodeStore>(
    store: &mut S,
    leaf: Box<LeafNode<S::K, S::V>>,
) -> Result<(LeafNodeId, Box<LeafNode<S::K, S::V>>), AllocError>
    ensures walked { MatchResult result (λ walked. (walked.1.value ≡ leaf.value) × ((S.slots store.old).leaf walked.0.0 ≡ Free) × ((S.slots store.new).leaf walked.0.0 ≡ Free) × ((other : ℕ) → other ≢ walked.0.0 → (S.slots store.new).leaf other ≡ (S.slots store.old).leaf other)) (λ _. S.slots store.new ≡ S.slots store.old) }
    ensures inner { (S.slots store.new).inner ≡ (S.slots store.old).inner }
{
    let id = store.reserve_leaf()?;
    store.assign_leaf(id, leaf);
    let leaf = store.take_leaf(id);
    store.release_leaf(id);
    Ok((id, leaf))
}

/// Adds a new leaf and inserts a pair. The leaf has that pair alone, and no neighbours.
pub fn starts_a_leaf<S: NodeStore>(
    store: &mut S,
    key: S::K,
    value: S::V,
) -> Result<LeafNodeId, AllocError>
    ensures was_free { IfOk result (λ id. (S.slots store.old).leaf id.0 ≡ Free) }
    ensures there { IfOk result (λ id. (S.slots store.new).leaf id.0 ≡ Present (record { pairs = (key, value) ∷ []; prev = None; next = None })) }
    ensures others { IfOk result (λ id. (other : ℕ) → other ≢ id.0 → (S.slots store.new).leaf other ≡ (S.slots store.old).leaf other) }
    ensures inner { (S.slots store.new).inner ≡ (S.slots store.old).inner }
{
    let id = new_empty_leaf(store)?;
    store.get_mut_leaf(id).insert_at(0, key, value);
    Ok(id)
}

// Makes a leaf in the allocator of a store.
fn makes_a_leaf_for<S: NodeStore>(store: &S) -> Result<Box<LeafNode<S::K, S::V>>, AllocError>
    ensures { IfOk result (λ leaf. leaf.value.pairs ≡ []) }
{
    LeafNode::new(store.allocator())
}

/// Writes to a leaf in its store, which changes nothing else.
pub fn writes_a_leaf<S: NodeStore>(store: &mut S, id: LeafNodeId)
    requires { IsPresent ((S.slots store.old).leaf id.0) }
    ensures there { (leaf : Leaf S.K S.V) → (S.slots store.old).leaf id.0 ≡ Present leaf → (S.slots store.new).leaf id.0 ≡ Present (record leaf { prev = None }) }
    ensures others { (other : ℕ) → other ≢ id.0 → (S.slots store.new).leaf other ≡ (S.slots store.old).leaf other }
    ensures inner { (S.slots store.new).inner ≡ (S.slots store.old).inner }
{
    store.get_mut_leaf(id).set_prev(None);
}

fn writes_an_inner_node<S: NodeStore>(store: &mut S, id: InnerNodeId, key: S::K) -> S::K
    requires there { IsPresent ((S.slots store.old).inner id.0) }
    requires keys { (node : Inner S.K S.Argument) → (S.slots store.old).inner id.0 ≡ Present node → 0 < length node.keys }
    ensures there { (node : Inner S.K S.Argument) → (S.slots store.old).inner id.0 ≡ Present node → (S.slots store.new).inner id.0 ≡ Present (record node { keys = slice_set node.keys 0 key }) }
    ensures others { (other : ℕ) → other ≢ id.0 → (S.slots store.new).inner other ≡ (S.slots store.old).inner other }
    ensures leaves { (S.slots store.new).leaf ≡ (S.slots store.old).leaf }
{
    store.get_mut_inner(id).set_key(0, key)
}

// If a node is present, both reads borrow it. If an id is reserved, there is no node to borrow.
fn reads_an_inner_node<S: NodeStore>(
    store: &S,
    id: InnerNodeId,
) -> (
    &InnerNode<S::K, S::Argument>,
    Option<&InnerNode<S::K, S::Argument>>,
)
    requires { IsPresent ((S.slots store.now).inner id.0) }
    ensures there { (node : Inner S.K S.Argument) → (S.slots store.now).inner id.0 ≡ Present node → result.0.now ≡ node }
    ensures both { IfSome result.1 (λ node. node.now ≡ result.0.now) }
    ensures some { IsSome result.1 }
{
    (store.get_inner(id), store.try_get_inner(id))
}

fn reads_a_leaf<S: NodeStore>(
    store: &S,
    id: LeafNodeId,
) -> (&LeafNode<S::K, S::V>, Option<&LeafNode<S::K, S::V>>)
    requires { IsPresent ((S.slots store.now).leaf id.0) }
    ensures there { (leaf : Leaf S.K S.V) → (S.slots store.now).leaf id.0 ≡ Present leaf → result.0.now ≡ leaf }
    ensures both { IfSome result.1 (λ leaf. leaf.now ≡ result.0.now) }
    ensures some { IsSome result.1 }
{
    (store.get_leaf(id), store.try_get_leaf(id))
}

fn finds_none_where_held<S: NodeStore>(
    store: &S,
    inner: InnerNodeId,
    leaf: LeafNodeId,
) -> (
    Option<&InnerNode<S::K, S::Argument>>,
    Option<&LeafNode<S::K, S::V>>,
)
    requires inner { (S.slots store.now).inner inner.0 ≡ Held }
    requires leaf { (S.slots store.now).leaf leaf.0 ≡ Held }
    ensures { result ≡ (None, None) }
{
    (store.try_get_inner(inner), store.try_get_leaf(leaf))
}

// Whatever id was cached, the hint is the id of a present leaf in whose range the key is.
fn trusts_the_hint<S: NodeStore>(store: &S, any: LeafNodeId, key: &S::K) -> Option<bool>
    ensures { IfSome result (λ holds. holds ≡ true) }
{
    store.cache_leaf(any);
    let id = store.try_cache(key, &mut Compares::new())?;
    Some(store.get_leaf(id).in_range(key))
}

// The hint holds with its comparisons counted too. Their number is at most the store's bound, which
// is small.
fn counts_the_hint<S: NodeStore>(store: &S, key: &S::K) -> (Option<bool>, usize)
    ensures holds { IfSome result.0 (λ holds. holds ≡ true) }
    ensures count { result.1 ≤ S.HINT_COMPARES }
    ensures few { result.1 ≤ 1000 }
{
    let mut compares = Compares::new();
    let holds = match store.try_cache(key, &mut compares) {
        Some(id) => Some(store.get_leaf(id).in_range(key)),
        None => None,
    };
    (holds, compares.count())
}

// The hint of the store over slabs holds too, after at most two comparisons.
fn compares_two_keys<K: Key, V: Drop, A: Argument<K>>(
    store: &NodeStoreVec<K, V, A>,
    key: &K,
) -> (Option<bool>, usize)
    ensures holds { IfSome result.0 (λ holds. holds ≡ true) }
    ensures count { result.1 ≤ 2 }
{
    let mut compares = Compares::new();
    let holds = match store.try_cache(key, &mut compares) {
        Some(id) => Some(store.get_leaf(id).in_range(key)),
        None => None,
    };
    (holds, compares.count())
}

/// Assigns a leaf in a clone. An id that is reserved in a store is reserved in its clone too.
pub fn assigns_in_a_clone<S: CloneStore>(
    store: &S,
    id: LeafNodeId,
    leaf: Box<LeafNode<S::K, S::V>>,
) -> Result<S, AllocError>
where
    S::V: Clone,
    requires { (S.slots store.now).leaf id.0 ≡ Held }
    ensures { IfOk result (λ copy. ((S.slots copy).leaf id.0 ≡ Present leaf.value) × ((other : ℕ) → other ≢ id.0 → IsSlotClone (IsLeafClone S.K.is_clone S.V.is_clone) ((S.slots store.now).leaf other) ((S.slots copy).leaf other)) × ((number : ℕ) → IsSlotClone (IsInnerClone S.K.is_clone S.Argument.is_clone) ((S.slots store.now).inner number) ((S.slots copy).inner number))) }
{
    let mut copy = store.clone()?;
    copy.assign_leaf(id, leaf);
    Ok(copy)
}
