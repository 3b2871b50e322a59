//! Callers of an iterator.
ghost use Rattle.std.specs.Prelude.{◌≡◌, ◌∷◌, [], length, map, slice_get, Some, None, Ok};
ghost use Rattle.std.specs.Option.{option_map};
ghost use Rattle.std.specs.Map.Iter.{deref_pair};

use bptree_stores::node_stores::NodeStore;
use bptree_tree::BPlusTree;
use bptree_tree::iterator::Iter;
use std::alloc::AllocError;

// An iterator has the pairs of the tree in order, and reports their number.
fn starts_with_all<S: NodeStore>(tree: &BPlusTree<S>) -> (Iter<'_, S>, usize)
    ensures pairs { result.0 ≡ tree.now.contents }
    ensures len { result.1 ≡ length tree.now.contents }
{
    let pairs = tree.iter();
    let len = pairs.len();
    (pairs, len)
}

// The first pair comes from the front.
fn gives_the_first<S: NodeStore>(tree: &BPlusTree<S>) -> Option<(&S::K, &S::V)>
    ensures { option_map deref_pair result ≡ slice_get tree.now.contents 0 }
{
    tree.iter().next()
}

// Each of three pairs comes once: the first, the last, and the one between. No pair is left.
fn gives_three_from_both_ends<'a, S: NodeStore>(
    pairs: &mut Iter<'a, S>,
) -> (
    (&'a S::K, &'a S::V),
    (&'a S::K, &'a S::V),
    (&'a S::K, &'a S::V),
)
    requires { length pairs.old ≡ 3 }
    ensures all { pairs.old ≡ map deref_pair (result.0 ∷ result.1 ∷ result.2 ∷ []) }
    ensures over { pairs.new ≡ [] }
{
    match (pairs.next(), pairs.next_back(), pairs.next()) {
        (Some(first), Some(last), Some(middle)) => (first, middle, last),
        _ => unreachable!(),
    }
}

// An iterator without pairs returns `None`, however often it is called.
fn gives_nothing_at_the_end<'a, S: NodeStore>(
    pairs: &mut Iter<'a, S>,
) -> (
    Option<(&'a S::K, &'a S::V)>,
    Option<(&'a S::K, &'a S::V)>,
    Option<(&'a S::K, &'a S::V)>,
)
    requires { pairs.old ≡ [] }
    ensures { result ≡ (None, None, None) }
{
    (pairs.next(), pairs.next_back(), pairs.next())
}

// A step leaves one pair fewer, and the size hint is exact.
fn counts_what_is_left<S: NodeStore>(pairs: &mut Iter<'_, S>) -> (usize, (usize, Option<usize>))
    requires { length pairs.old ≡ 2 }
    ensures { result ≡ (2, (1, Some 1)) }
{
    let before = (*pairs).len();
    pairs.next_back();
    (before, (*pairs).size_hint())
}

// A clone has the same pairs left, and never fails.
fn clones_what_is_left<'a, S: NodeStore>(pairs: &Iter<'a, S>) -> Result<Iter<'a, S>, AllocError>
    ensures { result ≡ Ok pairs.now }
{
    pairs.clone()
}
