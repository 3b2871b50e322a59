//! A visitor that counts the nodes on its descent.
ghost use Rattle.bptree_examples.specs.Depths.{IsDepth};

use std::alloc::{AllocError, Global};
use sweep_bptree::{Argument, BPlusTreeMap, DescendVisit, DescendVisitResult, Key};

/// Counts the nodes on the path to the first leaf. Any number from 1 on is allowed.
#[derive(Default, Drop)]
pub struct GetTreeDepth {
    depth: usize,
}

impl<K: Key, V, A: Argument<K>> DescendVisit<K, V, A> for GetTreeDepth {
    type Result = usize;

    ghost outcomes = { λ _ _ outcome. IsDepth outcome };

    fn visit_inner(
        &mut self,
        _keys: &[K],
        _arguments: &[A],
    ) -> Result<DescendVisitResult<usize>, AllocError> {
        self.depth = self.depth.saturating_add(1);
        Ok(DescendVisitResult::GoDown(0))
    }

    fn visit_leaf(&mut self, _keys: &[K], _values: &[V]) -> Result<Option<usize>, AllocError> {
        Ok(Some(self.depth.saturating_add(1)))
    }
}

/// Returns the number of pairs of a map of the first numbers, each with its tenfold, and the number
/// of nodes on the path to its first leaf.
pub fn run(alloc: Global, len: u32) -> Result<(usize, Option<usize>), AllocError> {
    let pairs = (0..len).map(|i| (u64::from(i), u64::from(i) * 10));
    let map: BPlusTreeMap<u64, u64> = BPlusTreeMap::from_iter(alloc, pairs)?;
    len_and_depth(&map)
}

fn len_and_depth<K: Key, V: Drop, A: Argument<K>>(
    map: &BPlusTreeMap<K, V, A>,
) -> Result<(usize, Option<usize>), AllocError> {
    match map.descend_visit(GetTreeDepth::default()) {
        Ok(depth) => Ok((map.len(), depth)),
        Err(_) => Err(AllocError),
    }
}
