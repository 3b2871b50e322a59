//! Laws of the contents of a tree, a map or a set, which are a list of pairs.
//!
//! Each function does nothing: its contract is the law.
ghost use Rattle.std.specs.Prelude.{List};
ghost use Rattle.bptree_keys.specs.Contents.{IsAscending, gather};
ghost use Rattle.bptree_keys.specs.ContentsLaws.{DelAscends, DelTakesKey, DelTakesOne, DelTakesValue, NextIsAfter, PreviousIsBefore, PutAddsOne, PutAscends, PutGivesKey, PutGivesValue};

use crate::key::Key;

/// After a pair is put, a look-up of its key finds its value, and a look-up of any other key finds
/// what it found before.
pub fn laws_of_put<K: Key, V>()
    ensures order { PutAscends K V K.cmp }
    ensures value { PutGivesValue K V K.cmp }
    ensures has { PutGivesKey K V K.cmp }
    ensures len { PutAddsOne K V K.cmp }
{}

/// After a pair is deleted, a look-up of its key finds nothing, and a look-up of any other key
/// finds what it found before.
pub fn laws_of_del<K: Key, V>()
    ensures order { DelAscends K V K.cmp }
    ensures value { DelTakesValue K V K.cmp }
    ensures has { DelTakesKey K V K.cmp }
    ensures len { DelTakesOne K V K.cmp }
{}

/// The list that `gather` computes from any list of pairs is ascending.
pub fn law_of_gather<K: Key, V>()
    ensures { (pairs : List (K × V)) → IsAscending K.cmp (gather K.cmp pairs) }
{}

/// On an ascending list, the next pair is the one with the least greater key, and the previous pair
/// is the one with the greatest smaller key.
pub fn laws_of_neighbours<K: Key, V>()
    ensures next { NextIsAfter K V K.cmp }
    ensures previous { PreviousIsBefore K V K.cmp }
{}
