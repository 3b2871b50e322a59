//! A search for a key by its index in its group.
ghost use Rattle.std.specs.Prelude.{◌≤◌, IfOk, length, map};
ghost use Rattle.bptree_arguments.specs.Groups.{SelectsInGroup};
ghost use Rattle.bptree_arguments.specs.Selection.{IsIndexBelow};
ghost use Rattle.bptree_keys.specs.Locate.{IfAscending};

use crate::argument::SearchArgument;
use crate::group::{FromRef, GroupCount};
use crate::group_order::keys_before;
use bptree_keys::end::End;
use bptree_keys::key::Key;
use std::alloc::AllocError;
use std::cmp::Ordering;

/// A query is a group and an index in it: it selects the key at that index, or `None` if the group
/// has no more keys.
impl<K: Key, G: FromRef<K> + Key> SearchArgument<K> for GroupCount<G> {
    type Query = (G, usize);

    ghost selects = { λ query keys index. SelectsInGroup G.cmp query.0 query.1 (map G.group_of keys) index };

    /// Makes the groups of at most 8 of 64 keys.
    fn locate_in_leaf(query: (G, usize), keys: &[K]) -> Result<Option<usize>, AllocError>
        requires { length keys.now ≤ 64 }
        ensures in_range { IfOk result (IsIndexBelow keys.now) }
        ensures selected { IfOk result (IfAscending K.cmp keys.now (SelectsInGroup G.cmp query.0 query.1 (map G.group_of keys.now))) }
    {
        let (group, offset) = query;
        let start = keys_before(keys, &group, End::Front)?;
        if offset < keys.len() - start {
            let index = start + offset;
            let of_key = G::from_ref(&keys[index])?;
            if of_key.cmp(&group).is_eq() {
                return Ok(Some(index));
            }
        }
        Ok(None)
    }

    /// Returns the child in which the key lies, and the query's group with the index within that
    /// child. It takes at most one step per child, up to the first whose greatest group is above
    /// the query's.
    fn locate_in_inner(
        query: (G, usize),
        _keys: &[K],
        arguments: &[Self],
    ) -> Result<Option<(usize, (G, usize))>, AllocError> {
        let (group, offset) = query;
        let mut rest = offset;
        for (i, argument) in arguments.iter().enumerate() {
            match argument.max_group() {
                None => {}
                Some((greatest, size)) => match greatest.cmp(&group) {
                    Ordering::Less => {}
                    Ordering::Equal => {
                        if rest < size {
                            return Ok(Some((i, (group, rest))));
                        }
                        rest -= size;
                    }
                    Ordering::Greater => return Ok(Some((i, (group, rest)))),
                },
            }
        }
        Ok(None)
    }
}
