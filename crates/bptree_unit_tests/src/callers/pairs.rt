//! Callers of the pairs of a leaf that is taken apart.
ghost use Rattle.std.specs.Prelude.{◌≡◌, ◌∷◌, [], Some, None};

use bptree_nodes::leaf_node::LeafNode;
use bptree_nodes::leaf_pairs::LeafPairs;
use std::alloc::Global;

// Each of two pairs comes once, from its end, and then `None`.
fn gives_two_from_both_ends<K: Drop, V: Drop>(
    leaf: Box<LeafNode<K, V>>,
) -> (Option<(K, V)>, Option<(K, V)>, Option<(K, V)>)
    ensures { (p q : K × V) → leaf.value.pairs ≡ p ∷ q ∷ [] → result ≡ (Some p, Some q, None) }
{
    let mut pairs = LeafNode::into_pairs(leaf);
    let last = pairs.next_back();
    let first = pairs.next();
    (first, last, pairs.next())
}

// An iterator without pairs returns `None` at once, from either end.
fn gives_nothing<K: Drop, V: Drop>(alloc: Global) -> (Option<(K, V)>, Option<(K, V)>)
    ensures { result ≡ (None, None) }
{
    let mut pairs = LeafPairs::new(alloc);
    (pairs.next(), pairs.next_back())
}
