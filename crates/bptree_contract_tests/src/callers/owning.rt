//! Callers of an iterator that owns its tree.
ghost use Rattle.std.specs.Prelude.{◌≡◌, ◌∷◌, [], length, slice_get, Some, None};

use bptree_stores::node_stores::NodeStore;
use bptree_tree::BPlusTree;
use bptree_tree::tree::IntoIter;

// An iterator has the pairs of the tree in order, and reports their number.
fn starts_with_all<S: NodeStore>(tree: BPlusTree<S>) -> (IntoIter<S>, usize)
    ensures pairs { result.0 ≡ tree.contents }
    ensures len { result.1 ≡ length tree.contents }
{
    let pairs = tree.into_iter();
    let len = pairs.len();
    (pairs, len)
}

// A step returns the first pair that is left.
fn gives_the_first<S: NodeStore>(pairs: &mut IntoIter<S>) -> Option<(S::K, S::V)>
    ensures { result ≡ slice_get pairs.old 0 }
{
    pairs.next()
}

// Each of three pairs comes once: the first, the last, the one between, and then `None` from either
// end.
fn gives_three_from_both_ends<S: NodeStore>(
    pairs: &mut IntoIter<S>,
) -> ((S::K, S::V), (S::K, S::V), (S::K, S::V))
    requires { length pairs.old ≡ 3 }
    ensures pairs { pairs.old ≡ result.0 ∷ result.1 ∷ result.2 ∷ [] }
    ensures over { pairs.new ≡ [] }
{
    match (pairs.next(), pairs.next_back(), pairs.next()) {
        (Some(first), Some(last), Some(middle)) => (first, middle, last),
        _ => unreachable!(),
    }
}

// The result of a step: a pair, or `None`.
type Gone<S> = Option<(<S as NodeStore>::K, <S as NodeStore>::V)>;

// An iterator without pairs returns `None`, however often it is called.
fn gives_nothing_at_the_end<S: NodeStore>(pairs: &mut IntoIter<S>) -> (Gone<S>, Gone<S>, Gone<S>)
    requires { pairs.old ≡ [] }
    ensures { result ≡ (None, None, None) }
{
    (pairs.next(), pairs.next_back(), pairs.next())
}

// A step leaves one pair fewer, and the size hint is exact.
fn counts_what_is_left<S: NodeStore>(pairs: &mut IntoIter<S>) -> (usize, (usize, Option<usize>))
    requires { length pairs.old ≡ 2 }
    ensures { result ≡ (2, (1, Some 1)) }
{
    let before = (*pairs).len();
    pairs.next_back();
    (before, (*pairs).size_hint())
}
