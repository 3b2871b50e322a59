//! Parts of the contents of a tree, by the positions at which they begin and end.
ghost use Rattle.std.specs.Prelude.{◌≡◌, IfOk, IsOk};
ghost use Rattle.bptree_ranges.specs.InTree.{EndsAt, HasAsMany, HasInOrder, HasPartBetween, HasPartFrom, HasPartUpTo, HasPosition, HasIndexesBetween, HasSelectedPart, HasSettled, PartStartsAt};
ghost use Rattle.bptree_ranges.specs.Ranges.{empty_at};

use crate::bounds::{bounds_of, can_hold, index_of_bound, part_between_bounds};
use bptree_arguments::argument::SearchArgument;
use bptree_invariant::nodes::Nodes;
use bptree_iter::part::{Part, PartLen};
use bptree_keys::end::End;
use bptree_keys::node_id::Position;
use bptree_search::by_argument::find_by_argument;
use bptree_stores::node_stores::NodeStore;
use std::alloc::AllocError;

/// Returns the pairs whose key is not below `lo` and is below `hi`, if they are given.
///
/// It makes one descent for each end, and takes no step from the one to the other. If `lo` is not
/// below `hi`, one comparison shows that, and it makes no descent for `hi`.
#[inline(always)]
pub fn part_between<S: NodeStore>(tree: &Nodes<S>, lo: Option<&S::K>, hi: Option<&S::K>) -> Part
    ensures { HasPartBetween S.slots tree.now S.K.cmp lo.entry hi.entry result }
{
    let (start, end) = bounds_of(lo, hi);
    part_between_bounds(tree, start, end)
}

/// Returns the positions at which the pairs begin and end whose key is not below `lo` and is below
/// `hi`, if they are given.
///
/// It searches for each end that is given, in O(log n) comparisons. It allocates nothing and cannot
/// fail.
pub fn indexes_between<S: NodeStore>(
    tree: &Nodes<S>,
    lo: Option<&S::K>,
    hi: Option<&S::K>,
) -> (Position, Position)
    ensures front { HasSettled S.slots tree.now result.0 result.0 }
    ensures back { HasSettled S.slots tree.now result.1 result.1 }
    ensures rises { HasInOrder S.slots tree.now result.0 result.1 }
    ensures pairs { HasIndexesBetween S.slots tree.now S.K.cmp lo.entry hi.entry result }
{
    let (start, end) = bounds_of(lo, hi);
    tree.recall();
    let first = index_of_bound(tree, start, End::Front);
    let front = settled(tree, first);
    if !can_hold(start, end) {
        return (front, front);
    }
    let behind = index_of_bound(tree, end, End::Back);
    let back = settled(tree, behind);
    (front, back)
}

/// Returns a part without pairs, at a position.
pub(crate) fn no_part(at: Position) -> Part
    ensures { result ≡ empty_at at }
{
    Part {
        front: at,
        back: at,
        limit: 0,
        extent: PartLen::Exact,
    }
}

/// Returns the pairs between two positions, or the first `limit` of them. The second position must
/// not be before the first.
pub(crate) fn part_of_indexes<S: NodeStore>(
    tree: &Nodes<S>,
    front: Position,
    back: Position,
    limit: usize,
    extent: PartLen,
) -> Part
    requires front { HasPosition S.slots tree.now front }
    requires back { HasPosition S.slots tree.now back }
    requires rises { HasInOrder S.slots tree.now front back }
    requires reports { HasAsMany S.slots tree.now front back limit extent }
    ensures { HasPartUpTo S.slots tree.now front back limit result }
{
    tree.recall();
    let front = settled(tree, front);
    let back = settled(tree, back);
    Part {
        front,
        back,
        limit,
        extent,
    }
}

/// Returns an equivalent position at a pair: the end of a leaf becomes the start of the next one,
/// if there is one.
///
/// O(1). It allocates nothing and cannot fail.
pub fn settled<S: NodeStore>(tree: &Nodes<S>, at: Position) -> Position
    requires { HasPosition S.slots tree.now at }
    ensures { HasSettled S.slots tree.now at result }
{
    let leaf = tree.store.get_leaf(at.leaf);
    if at.slot < leaf.len() {
        return at;
    }
    match leaf.next() {
        Some(next) => Position {
            leaf: next,
            slot: 0,
        },
        None => at,
    }
}

/// Returns the position of the first pair of all.
pub(crate) fn start_of_all<S: NodeStore>(tree: &Nodes<S>) -> Position
    ensures index { HasPosition S.slots tree.now result }
    ensures start { PartStartsAt S.slots tree.now result }
{
    tree.recall();
    Position {
        leaf: tree.first_leaf(),
        slot: 0,
    }
}

/// Returns the position after the last pair of all.
pub(crate) fn end_of_all<S: NodeStore>(tree: &Nodes<S>) -> Position
    ensures index { HasPosition S.slots tree.now result }
    ensures end { EndsAt S.slots tree.now result }
{
    let leaf = tree.last_leaf();
    let slot = tree.store.get_leaf(leaf).len();
    Position { leaf, slot }
}

/// Returns the first `n` pairs from an index on that the query selects, or all from there if there
/// are fewer. If the query selects no index, the part is empty.
///
/// It makes one descent for the query, and one to the last leaf. It cannot fail if the argument
/// needs no memory.
pub fn part_by_argument<S: NodeStore>(
    tree: &Nodes<S>,
    query: <S::Argument as SearchArgument<S::K>>::Query,
    n: usize,
) -> Result<Part, AllocError>
where
    S::Argument: SearchArgument<S::K>,
    ensures part { IfOk result (HasSelectedPart S.slots tree.now S.Argument.selects query n) }
    ensures infallible { S.Argument.needs_no_memory → IsOk result }
{
    tree.recall();
    match find_by_argument(tree, query)? {
        None => Ok(no_part(start_of_all(tree))),
        Some(front) => Ok(part_from(tree, front, n)),
    }
}

/// Returns the first `n` pairs from a position on, or all if there are fewer.
pub(crate) fn part_from<S: NodeStore>(tree: &Nodes<S>, front: Position, n: usize) -> Part
    requires { HasPosition S.slots tree.now front }
    ensures { HasPartFrom S.slots tree.now front n result }
{
    tree.recall();
    let back = end_of_all(tree);
    part_of_indexes(tree, front, back, n, PartLen::Cut)
}
