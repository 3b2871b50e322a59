//! Callers of a new tree, and of calls that read any tree.
ghost use Rattle.std.specs.Prelude.{◌≡◌, ◌≢◌, ◌<◌, ◌≤◌, ◌+◌, ◌*◌, ◌^◌, ◌-◌, [], length, true, false, slice_get, IfOk, IfSome};
ghost use Rattle.std.specs.declared.cmp.Ordering.TheVariants.{Equal};
ghost use Rattle.std.specs.Map.{keys_of};
ghost use Rattle.std.specs.Map.Iter.{deref_pair};
ghost use Rattle.std.specs.Option.{option_copied, option_map};
ghost use Rattle.bptree_keys.specs.Contents.{IsAscending, has, value as value_of, last_member};
ghost use Rattle.bptree_nodes.specs.Slot.{IsEmpty};
ghost use Rattle.bptree_contract_tests.specs.Words.{ShowsEndsOfTwo, ShowsTheSame};

use bptree_keys::node_id::NodeId;
use bptree_stores::node_stores::NodeStore;
use bptree_tree::BPlusTree;
use std::alloc::AllocError;

// A new tree over an empty store has no pairs.
fn starts_empty<S: NodeStore>(store: S) -> Result<BPlusTree<S>, AllocError>
    requires { IsEmpty (S.slots store) }
    ensures { IfOk result (λ tree. tree.contents ≡ []) }
{
    BPlusTree::new(store)
}

// A tree without pairs reports that it is empty, and has no ends. A tree with a pair is not empty.
fn says_that_it_is_empty<S: NodeStore>(tree: &BPlusTree<S>) -> (bool, usize, bool, bool)
    ensures empty { tree.now.contents ≡ [] → result ≡ (true, 0, true, true) }
    ensures some { tree.now.contents ≢ [] → result.0 ≡ false }
{
    (
        tree.is_empty(),
        tree.len(),
        tree.first().is_none(),
        tree.last().is_none(),
    )
}

// The first pair and the last, by both names of the calls: `None` if there is no pair, and both of
// two pairs.
fn gives_both_ends<S: NodeStore>(
    tree: &BPlusTree<S>,
) -> (
    (Option<(&S::K, &S::V)>, Option<(&S::K, &S::V)>),
    (Option<(&S::K, &S::V)>, Option<(&S::K, &S::V)>),
)
    ensures first { slice_get tree.now.contents 0 ≡ option_map deref_pair result.0.0 }
    ensures last { last_member tree.now.contents ≡ option_map deref_pair result.0.1 }
    ensures ends { ShowsEndsOfTwo tree.now.contents result.0 }
    ensures same { ShowsTheSame result.1 result.0 }
{
    (
        (tree.first(), tree.last()),
        (tree.first_key_value(), tree.last_key_value()),
    )
}

// The summary of all keys. A count is their number.
fn summarizes_all_keys<S: NodeStore>(tree: &BPlusTree<S>) -> &S::Argument
    ensures { S.Argument.is_summary result.now (keys_of tree.now.contents) }
{
    tree.root_argument()
}

// A look-up and its number of comparisons: at most seven on each level, and those for the cached
// leaf.
fn counts_a_look_up<'a, S: NodeStore>(
    tree: &'a BPlusTree<S>,
    k: &S::K,
) -> (Option<&'a S::V>, usize, usize)
    ensures value { option_copied result.0 ≡ value_of S.K.cmp tree.now.contents k.now }
    ensures count { result.1 ≤ 7 * (result.2 + 1) + S.HINT_COMPARES }
    ensures most { result.1 ≤ 112 + S.HINT_COMPARES }
{
    let height = tree.height();
    let (value, count) = tree.get_counted(k);
    (value, count, height)
}

// A tree has at most 15 levels above its leaves, and many pairs if it has such levels. It reports
// its number of pairs, whose keys ascend.
fn is_low<S: NodeStore>(tree: &BPlusTree<S>) -> (usize, usize)
    ensures levels { result.0 ≤ 15 }
    ensures enough { 0 < result.0 → 32 * 17 ^ (result.0 - 1) ≤ result.1 }
    ensures len { IsAscending S.K.cmp tree.now.contents × (length tree.now.contents ≡ result.1) }
{
    (tree.height(), tree.len())
}

// The root is a leaf if and only if there are no levels above the leaves, and it is in the store.
fn reads_the_root<S: NodeStore>(tree: &BPlusTree<S>) -> bool
    ensures { result ≡ true }
{
    let store = tree.node_store();
    match (tree.root_id(), tree.height()) {
        (NodeId::Leaf(id), 0) => store.try_get_leaf(id).is_some(),
        (NodeId::Inner(_), 0) => unreachable!(),
        (NodeId::Inner(id), _) => store.try_get_inner(id).is_some(),
        (NodeId::Leaf(_), _) => unreachable!(),
    }
}

// A key is contained if and only if an equal key is present. Its value is found, or `None`.
fn finds_the_value<'a, S: NodeStore>(tree: &'a BPlusTree<S>, k: &S::K) -> (bool, Option<&'a S::V>)
    ensures contained { result.0 ≡ has S.K.cmp tree.now.contents k.now }
    ensures found { option_copied result.1 ≡ value_of S.K.cmp tree.now.contents k.now }
{
    (tree.contains_key(k), tree.get(k))
}

// A pair that is found has a key that equals the given one, and its value is the one at the key.
fn finds_the_pair_of_a_key<'a, S: NodeStore>(
    tree: &'a BPlusTree<S>,
    k: &S::K,
) -> Option<(&'a S::K, &'a S::V)>
    ensures key { IfSome result (λ pair. S.K.cmp pair.0.now k.now ≡ Equal) }
    ensures value { option_map (λ p. p.1.now) result ≡ value_of S.K.cmp tree.now.contents k.now }
{
    tree.get_key_value(k)
}
