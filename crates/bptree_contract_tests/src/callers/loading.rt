//! Callers of loading, and of the division of a layer into nodes.
ghost use Rattle.std.specs.Prelude.{◌≡◌, IfOk};
ghost use Rattle.std.specs.Map.{keys_of};
ghost use Rattle.bptree_keys.specs.Contents.{IsAscending, load};
ghost use Rattle.bptree_load_plan.specs.Cuts.{first_of};
ghost use Rattle.bptree_load_plan.specs.Loading.{IsInLoadOrder};
ghost use Rattle.bptree_contract_tests.specs.Summaries.{RootSumsUp};
ghost use Rattle.bptree_contract_tests.specs.Words.{HasLastValues};

use bptree_load_plan::cuts::first_of_layer;
use bptree_load_plan::loading::laws_of_load;
use bptree_stores::node_stores::NodeStore;
use bptree_tree::BPlusTree;
use std::alloc::AllocError;

// The number of pairs in the first leaf of more than 64 pairs.
fn first_leaf(pairs: usize) -> usize
    ensures { result ≡ first_of pairs 60 16 }
{
    first_of_layer(pairs, 60, 16)
}

// 65 pairs are shared between two leaves. Of 3905 pairs the last two leaves share the 65 pairs behind
// 64 leaves of 60 pairs.
fn two_leaves_or_more() -> (usize, usize, usize)
    ensures { result ≡ (33, 60, 65) }
{
    (
        first_leaf(65),
        first_leaf(3905),
        3905 - 64 * first_leaf(3905),
    )
}

// Up to 75 pairs are shared between two leaves. From 76 pairs on the first leaf gets 60.
fn shared_or_not() -> (usize, usize)
    ensures { result ≡ (38, 60) }
{
    (first_leaf(75), first_leaf(76))
}

// Up to 81 children are shared between two nodes. From 82 children on the first node is full.
fn children() -> (usize, usize, usize, usize, usize)
    ensures { result ≡ (65, 33, 41, 65, 65) }
{
    (
        first_of_layer(65, 65, 17),
        first_of_layer(66, 65, 17),
        first_of_layer(81, 65, 17),
        first_of_layer(82, 65, 17),
        first_of_layer(157, 65, 17),
    )
}

// Ascending pairs are loaded as they are.
fn loads_all<S: NodeStore>(pairs: Vec<(S::K, S::V)>) -> Result<BPlusTree<S>, AllocError>
    requires { IsAscending S.K.cmp pairs.items }
    ensures { IfOk result (λ tree. tree.contents ≡ pairs.items) }
{
    laws_of_load::<S::K, S::V>();
    BPlusTree::bulk_load(pairs)
}

// Each key has the value of the last pair with an equal key. The summary at the root is a summary
// of what was loaded.
fn loads_the_last<S: NodeStore>(pairs: Vec<(S::K, S::V)>) -> Result<BPlusTree<S>, AllocError>
    requires { IsInLoadOrder S.K.cmp pairs.items }
    ensures values { IfOk result (λ tree. HasLastValues S.K.cmp pairs.items tree.contents) }
    ensures summary { IfOk result (RootSumsUp S.Argument.is_summary (keys_of (load S.K.cmp pairs.items))) }
{
    laws_of_load::<S::K, S::V>();
    BPlusTree::bulk_load(pairs)
}
