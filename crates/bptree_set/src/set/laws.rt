//! Laws of the list of keys that represents a set.
ghost use Rattle.std.specs.Prelude.{◌≡◌, List};
ghost use Rattle.std.specs.List.Sorted.{IsStrictlySortedBy};
ghost use Rattle.bptree_map.specs.Keys.{holds, gathered, keys_within, keys_without};
ghost use Rattle.bptree_set.specs.Symmetric.{symmetric};
ghost use Rattle.bptree_set.specs.TwoSets.{KeepsFirstOrder, KeepsOrder, MakesDifference, MakesIntersection, MakesSymmetricDifference};
ghost use Rattle.bptree_set.specs.KeyLaws.{WithKeyLaws, WithoutKeyLaws};

use bptree_keys::key::Key;

/// After a key was inserted, the list holds it, and the other keys as before; after a key was
/// removed, the list holds no key that equals it, and the other keys as before. Both leave an
/// ascending list ascending. The list that is gathered of any list ascends, and an ascending list
/// is gathered as it is: so `from_iter` of the keys of `into_iter` is the same set. The function
/// does nothing.
///
/// O(1). It cannot fail.
pub fn laws_of_keys<K: Key>()
    ensures with_key { WithKeyLaws K.cmp }
    ensures without_key { WithoutKeyLaws K.cmp }
    ensures gathered { (keys : List K) → IsStrictlySortedBy K.cmp (gathered K.cmp keys) }
    ensures same { (keys : List K) → IsStrictlySortedBy K.cmp keys → gathered K.cmp keys ≡ keys }
{}

/// The keys that two lists share, those that the first holds alone, and those that exactly one of
/// them holds: they ascend if the lists do, and the lists that hold a key determine whether they
/// hold it. The function does nothing.
///
/// O(1). It cannot fail.
pub fn laws_of_two_sets<K: Key>()
    ensures difference_order { KeepsFirstOrder K.cmp (keys_without K.cmp) }
    ensures difference { MakesDifference K.cmp (keys_without K.cmp) }
    ensures intersection_order { KeepsFirstOrder K.cmp (keys_within K.cmp) }
    ensures intersection { MakesIntersection K.cmp (keys_within K.cmp) }
    ensures symmetric_order { KeepsOrder K.cmp (symmetric K.cmp) }
    ensures symmetric { MakesSymmetricDifference K.cmp (symmetric K.cmp) }
{}
