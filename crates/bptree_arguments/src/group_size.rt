//! The visitor that counts the keys of one group.
ghost use Rattle.std.specs.Prelude.{◌≡◌, map};
ghost use Rattle.std.specs.Map.{keys_of};
ghost use Rattle.bptree_arguments.specs.GroupSizes.{IsSizeResult};

use crate::group::{FromRef, GroupCount};
use crate::group_order::keys_before;
use crate::visit::{DescendVisit, DescendVisitResult};
use bptree_keys::end::End;
use bptree_keys::key::Key;
use std::alloc::AllocError;
use std::cmp::Ordering;
use std::marker::{Model, PhantomData};

/// Counts the keys of one group. The result is 0 if there is no such key, and stops at the greatest
/// `usize`.
#[derive(Drop)]
pub struct ExtractGroupSize<G, K> {
    group: G,
    counted: usize,
    of: PhantomData<K>,
}

impl<G, K> Model for ExtractGroupSize<G, K> {
    ghost use Rattle.bptree_arguments.specs.GroupSizes.{GroupSize};

    ghost Value = { GroupSize G };

    ghost view = { λ v. record { group = v.group; counted = v.counted } };
}

impl<G, K> ExtractGroupSize<G, K> {
    /// Returns a visitor that has counted no key yet.
    ///
    /// O(1). It allocates nothing and cannot fail.
    pub fn new(group: G) -> Self
        ensures group { result.group ≡ group }
        ensures counted { result.counted ≡ 0 }
    {
        ExtractGroupSize {
            group,
            counted: 0,
            of: PhantomData,
        }
    }
}

impl<K: Key, V, G: FromRef<K> + Key> DescendVisit<K, V, GroupCount<G>> for ExtractGroupSize<G, K> {
    type Result = usize;

    ghost outcomes = { λ v pairs outcome. IsSizeResult G.cmp v (map G.group_of (keys_of pairs)) outcome };

    /// Makes one comparison per child up to the group, and one more there. The descent continues
    /// only into a child that has keys on both sides of the group's beginning.
    fn visit_inner(
        &mut self,
        _keys: &[K],
        arguments: &[GroupCount<G>],
    ) -> Result<DescendVisitResult<usize>, AllocError> {
        let mut counted = self.counted;
        for (i, argument) in arguments.iter().enumerate() {
            match argument.ends() {
                None => {}
                Some(ends) => match ends.greatest.cmp(&self.group) {
                    Ordering::Less => {}
                    Ordering::Equal => counted = counted.saturating_add(ends.greatest_size),
                    Ordering::Greater => match ends.least.cmp(&self.group) {
                        Ordering::Less => {
                            self.counted = counted;
                            return Ok(DescendVisitResult::GoDown(i));
                        }
                        Ordering::Equal => {
                            return Ok(DescendVisitResult::Complete(counted.saturating_add(
                                ends.least_size,
                            )));
                        }
                        Ordering::Greater => return Ok(DescendVisitResult::Complete(counted)),
                    },
                },
            }
        }
        Ok(DescendVisitResult::Complete(counted))
    }

    /// Makes two binary searches, one for the beginning of the group and one for its end.
    fn visit_leaf(&mut self, keys: &[K], _values: &[V]) -> Result<Option<usize>, AllocError> {
        let start = keys_before(keys, &self.group, End::Front)?;
        let size = keys_before(&keys[start..], &self.group, End::Back)?;
        let counted = self.counted.saturating_add(size);
        Ok(Some(counted))
    }
}
