//! Parts of the contents of a tree.
ghost use Rattle.std.specs.Prelude.{◌≡◌, List, IfOk, IsOk};
ghost use Rattle.std.specs.Map.Iter.{ShowsInOrder, deref_pair};
ghost use Rattle.bptree_arguments.specs.Groups.{of_group};
ghost use Rattle.bptree_keys.specs.Contents.{IsAscending};
ghost use Rattle.bptree_keys.specs.Ranges.{part};
ghost use Rattle.bptree_search.specs.ByArgument.{IsPartSelected};
ghost use Rattle.bptree_tree.specs.Entries.{IsPartOf, pairs_between};

use crate::tree::BPlusTree;
use bptree_arguments::argument::SearchArgument;
use bptree_arguments::group::FromRef;
use bptree_invariant::nodes::Nodes;
use bptree_iter::iterator::Iter;
use bptree_iter::part::Part;
use bptree_keys::key::Key;
use bptree_ranges::groups::{part_of_group, part_within_group};
use bptree_ranges::ranges::{part_between, part_by_argument};
use bptree_stores::node_stores::NodeStore;
use std::alloc::AllocError;

// The pairs of a part of a tree.
pub(crate) fn pairs_from<S: NodeStore>(tree: &Nodes<S>, part: Part) -> Iter<'_, S>
    requires { (pairs : List (S.K × S.V)) × IsPartOf S.slots tree.now part pairs }
    ensures rest { (pairs : List (S.K × S.V)) → IsPartOf S.slots tree.now part pairs → result ≡ pairs }
    ensures ascending { IsAscending S.K.cmp result }
    ensures runs { ShowsInOrder (deref_pair {K = S.K} {X = S.V}) }
{
    Iter::new(&tree.store, part)
}

impl<S: NodeStore> BPlusTree<S> {
    /// The pairs whose keys are at least `lo` and below `hi`, in the order of their keys. `None`
    /// means no bound.
    ///
    /// O(log n) to begin: one descent for each bound, whatever the number of pairs. O(1) a step.
    /// `len` takes O(1) for each leaf of the range. Neither it nor a step allocates or fails.
    pub fn range<'b>(&self, lo: Option<&'b S::K>, hi: Option<&'b S::K>) -> Iter<'_, S>
        ensures rest { result ≡ pairs_between S.K.cmp self.now.contents lo.entry hi.entry }
        ensures ascending { IsAscending S.K.cmp result }
        ensures runs { ShowsInOrder (deref_pair {K = S.K} {X = S.V}) }
    {
        let part = part_between(&self.nodes, lo, hi);
        pairs_from(&self.nodes, part)
    }

    /// At most `n` pairs from an index on that is allowed for the query, in the order of their
    /// keys. If no index is allowed, there are none.
    ///
    /// O(log n) to begin, and O(1) a step. `len` and the first step from the back take O(1) for
    /// each leaf of the range. It fails only if the argument does. A step allocates nothing and
    /// cannot fail.
    pub fn range_by_argument(
        &self,
        query: <S::Argument as SearchArgument<S::K>>::Query,
        n: usize,
    ) -> Result<Iter<'_, S>, AllocError>
    where
        S::Argument: SearchArgument<S::K>,
        ensures rest { IfOk result (λ it. IsPartSelected S.Argument.selects query self.now.contents n it) }
        ensures ascending { IfOk result (λ it. IsAscending S.K.cmp it) }
        ensures infallible { S.Argument.needs_no_memory → IsOk result }
        ensures runs { ShowsInOrder (deref_pair {K = S.K} {X = S.V}) }
    {
        let part = part_by_argument(&self.nodes, query, n)?;
        Ok(pairs_from(&self.nodes, part))
    }

    /// The pairs whose keys are in a group, in the order of their keys.
    ///
    /// O(log n) to begin: two descents, which compute the groups of at most 7 keys or separators a
    /// node, and use no summary. O(1) a step. `len` takes O(1) for each leaf of the range. It
    /// allocates only what the groups of keys allocate, and fails only if one of these fails. A
    /// step allocates nothing and cannot fail.
    pub fn group_range<G: FromRef<S::K> + Key>(&self, group: &G) -> Result<Iter<'_, S>, AllocError>
        ensures rest { IfOk result (λ it. it ≡ of_group G.cmp G.group_of group.now self.now.contents) }
        ensures ascending { IfOk result (λ it. IsAscending S.K.cmp it) }
        ensures runs { ShowsInOrder (deref_pair {K = S.K} {X = S.V}) }
    {
        let part = part_of_group(&self.nodes, group)?;
        Ok(pairs_from(&self.nodes, part))
    }

    /// At most `n` pairs of a group, from its pair with the index `i` on, counted from 0.
    ///
    /// O(log n) to begin if summaries determine how many keys they are of, as those of `Count` and
    /// `GroupCount` do, and else O(log n + i / 16). O(1) a step, but for the first one from the
    /// back. It allocates only what the groups of keys allocate, and fails only if one of these
    /// fails. A step allocates nothing and cannot fail.
    pub fn group_part<G: FromRef<S::K> + Key>(
        &self,
        group: &G,
        i: usize,
        n: usize,
    ) -> Result<Iter<'_, S>, AllocError>
        ensures rest { IfOk result (λ it. it ≡ part (of_group G.cmp G.group_of group.now self.now.contents) i n) }
        ensures ascending { IfOk result (λ it. IsAscending S.K.cmp it) }
        ensures runs { ShowsInOrder (deref_pair {K = S.K} {X = S.V}) }
    {
        let part = part_within_group(&self.nodes, group, i, n)?;
        Ok(pairs_from(&self.nodes, part))
    }
}
