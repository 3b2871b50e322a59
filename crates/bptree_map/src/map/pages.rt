//! Pages of a map: so many pairs each, in the order of their keys, and counted from 0.
ghost use Rattle.std.specs.Prelude.{◌≡◌, ◌≤◌, ℕ, List, [], length, IfOk, IsOk, Ok, Err};
ghost use Rattle.std.specs.Int.{div_ceil};
ghost use Rattle.std.specs.Map.Iter.{ShowsInOrder, deref_pair};
ghost use Rattle.bptree_propagation.specs.Failing.{OkIs};
ghost use Rattle.bptree_keys.specs.Contents.{IsAscending, has};
ghost use Rattle.bptree_tree.specs.Pages.{page as page_of_list, group_page as group_page_of_list, first_pages, IsPageOf};

use super::{BPlusTreeMap, Iter};
use bptree_arguments::argument::Argument;
use bptree_arguments::count::Count;
use bptree_arguments::group::FromRef;
use bptree_keys::key::Key;
use std::alloc::AllocError;

impl<K: Key, V: Drop, A: Argument<K>> BPlusTreeMap<K, V, A> {
    /// The number of pages of `s` pairs that the map has: its length divided by `s`, rounded up.
    ///
    /// O(1). It allocates nothing and cannot fail.
    pub fn pages(&self, s: usize) -> usize
        requires { 1 ≤ s }
        ensures { result ≡ div_ceil (length self.now) s }
    {
        self.len().div_ceil(s)
    }

    /// The pairs of page `p` of one group, with `s` pairs a page: the first page of the group is 0,
    /// and a page past its last one has no pairs.
    ///
    /// O(log n) to begin: two descents, which search by the groups of keys as `group_range` does.
    /// If summaries determine how many keys they are of, they skip the pages before. Otherwise the
    /// pairs before are stepped over. It allocates only what the groups of keys allocate, and fails
    /// only if one of these allocations does. A step allocates nothing.
    pub fn group_page<G: FromRef<K> + Key>(
        &self,
        group: &G,
        p: usize,
        s: usize,
    ) -> Result<Iter<'_, K, V, A>, AllocError>
        requires { 1 ≤ s }
        ensures rest { OkIs result (group_page_of_list G.cmp G.group_of group.now self.now p s) }
        ensures ascending { IfOk result (λ pairs. IsAscending K.cmp pairs) }
        ensures runs { ShowsInOrder (deref_pair {K = K} {X = V}) }
    {
        self.recall();
        self.group_part(group, p.saturating_mul(s), s)
    }
}

impl<K: Key, V: Drop> BPlusTreeMap<K, V, Count> {
    /// The pairs of page `p`, with `s` pairs a page: the first page is 0, and a page past the last
    /// one has no pairs.
    ///
    /// O(log n): one descent by the counts, and one to the last leaf. Neither it nor a step
    /// allocates or fails.
    pub fn page(&self, p: usize, s: usize) -> Result<Iter<'_, K, V, Count>, AllocError>
        requires { 1 ≤ s }
        ensures rest { OkIs result (page_of_list self.now p s) }
        ensures ascending { IfOk result (λ pairs. IsAscending K.cmp pairs) }
        ensures infallible { IsOk result }
        ensures runs { ShowsInOrder (deref_pair {K = K} {X = V}) }
    {
        self.recall();
        self.range_by_argument(p.saturating_mul(s), s)
    }

    /// The page on which a key is, or would be, with `s` pairs a page: the number of smaller keys
    /// divided by `s`, rounded down. The inner result is `Ok` exactly if the key is present.
    ///
    /// O(log n): one descent. It allocates nothing and cannot fail.
    pub fn page_of(&self, k: &K, s: usize) -> Result<Result<usize, usize>, AllocError>
        requires { 1 ≤ s }
        ensures page { IfOk result (IsPageOf K.cmp self.now k.now s) }
        ensures infallible { IsOk result }
    {
        match self.rank_by_argument(k)? {
            Ok(rank) => Ok(Ok(rank / s)),
            Err(rank) => Ok(Err(rank / s)),
        }
    }
}

/// The pages of a list, from the first to the last, are the list, one after another; each later
/// page is empty. The function does nothing.
///
/// O(1). It cannot fail.
pub fn laws_of_pages<K: Key, V: Drop>()
    ensures all { (l : List (K × V)) (s : ℕ) → 1 ≤ s → first_pages l s (div_ceil (length l) s) ≡ l }
    ensures later { (l : List (K × V)) (p s : ℕ) → 1 ≤ s → div_ceil (length l) s ≤ p
        → page_of_list l p s ≡ [] }
{}
