//! Callers that move many pairs or keys at once, and one that removes a key and returns it.
ghost use Rattle.std.specs.Prelude.{◌≡◌, ◌≢◌, ◌+◌, ◌-◌, ◌^◌, ◌<◌, ◌≤◌, ◌∷◌, [], true, false, length, Err, IfErr, IfOk, OnErr, OnOk, None, Some};
ghost use Rattle.bptree_keys.specs.Contents.{has, put};
ghost use Rattle.bptree_map.specs.Keys.{holds, key_found};
ghost use Rattle.bptree_tree.specs.Returning.{pair_of};
ghost use Rattle.bptree_tree.specs.declared.AppendError.TheVariants.{Full};
ghost use Rattle.bptree_contract_tests.specs.Words.{HoldsEither, KeepsOthers, MovesOne, MovesOneKey, PutsCloneOfLast, PutsLastOfEach};

use bptree_arguments::argument::Argument;
use bptree_keys::key::Key;
use bptree_map::map::BPlusTreeMap;
use bptree_set::set::BPlusTreeSet;
use bptree_tree::{AppendError, InsertError};
use std::alloc::AllocError;

// The one pair of another map moves to this map, and its value replaces an old one.
fn moves_one_pair<K: Key, V: Drop, A: Argument<K>>(
    map: &mut BPlusTreeMap<K, V, A>,
    other: &mut BPlusTreeMap<K, V, A>,
) -> Result<(), AppendError>
    ensures moved { OnOk result (MovesOne K.cmp map.old other.old map.new other.new) }
    ensures left { OnOk result (other.new ≡ []) }
{
    map.append(other)
}

// A key that is taken equals the given one, and is the stored key.
fn takes_a_key<K: Key>(set: &mut BPlusTreeSet<K>, k: &K) -> Result<Option<K>, AllocError>
    ensures taken { IfOk result (λ gone. gone ≡ key_found K.cmp set.old k.now) }
    ensures failed { OnErr result (set.new ≡ set.old) }
{
    set.take(k)
}

// The one key of another set moves to this set.
fn moves_one_key<K: Key>(
    set: &mut BPlusTreeSet<K>,
    other: &mut BPlusTreeSet<K>,
) -> Result<(), AppendError>
    ensures { OnOk result (MovesOneKey K.cmp set.old other.old set.new other.new) }
{
    set.append(other)
}

// A key that is put into an empty set replaces no key.
fn replaces_none<K: Key>(set: &mut BPlusTreeSet<K>, k: K) -> Result<Option<K>, InsertError<K, ()>>
    ensures none { IfOk result (λ gone. set.old ≡ [] → gone ≡ None) }
    ensures alone { OnOk result (set.old ≡ [] → set.new ≡ k ∷ []) }
{
    set.replace(k)
}

// After a split this map does not have the key. The other one has it if this map had it before.
fn splits_at_a_key<K: Key, V: Drop, A: Argument<K>>(
    map: &mut BPlusTreeMap<K, V, A>,
    k: &K,
) -> Result<BPlusTreeMap<K, V, A>, AllocError>
    ensures here { OnOk result (has K.cmp map.new k.now ≡ false) }
    ensures there { IfOk result (λ there. has K.cmp there k.now ≡ has K.cmp map.old k.now) }
{
    map.split_off(k)
}

// After a split this set does not hold the key. The other one holds it if this set held it before.
fn splits_a_set_at_a_key<K: Key>(
    set: &mut BPlusTreeSet<K>,
    k: &K,
) -> Result<BPlusTreeSet<K>, AllocError>
    ensures here { OnOk result (holds K.cmp set.new k.now ≡ false) }
    ensures there { IfOk result (λ there. holds K.cmp there k.now ≡ holds K.cmp set.old k.now) }
{
    set.split_off(k)
}

// Extending a map keeps the last pair of each key, and other keys keep their values. The pair that
// an error returns has a key that was absent.
fn puts_the_last_of_each_key<K: Key, V: Drop, A: Argument<K>>(
    map: &mut BPlusTreeMap<K, V, A>,
    pairs: Vec<(K, V)>,
) -> Result<(), InsertError<K, V>>
    ensures last { OnOk result (PutsLastOfEach K.cmp pairs.items map.new) }
    ensures others { OnOk result (KeepsOthers K.cmp pairs.items map.old map.new) }
    ensures failed { IfErr result (λ error. has K.cmp map.old (pair_of error).0 ≡ false) }
{
    map.recall();
    map.extend(pairs)
}

// After an extension a set holds its old keys and the new ones. The key that an error returns was
// absent.
fn holds_what_came<K: Key>(
    set: &mut BPlusTreeSet<K>,
    keys: Vec<K>,
) -> Result<(), InsertError<K, ()>>
    ensures held { OnOk result (HoldsEither K.cmp set.old keys.items set.new) }
    ensures failed { IfErr result (λ error. holds K.cmp set.old (pair_of error).0 ≡ false) }
{
    set.recall();
    set.extend(keys)
}

// Appending an empty map never fails, and changes nothing.
fn append_of_nothing<K: Key, V: Drop, A: Argument<K>>(
    map: &mut BPlusTreeMap<K, V, A>,
    other: &mut BPlusTreeMap<K, V, A>,
)
    requires { other.old ≡ [] }
    ensures here { map.new ≡ map.old }
    ensures there { other.new ≡ [] }
{
    match map.append(other) {
        Ok(()) => {}
        Err(_) => unreachable!(),
    }
}

// Appending an empty set never fails, and changes nothing.
fn append_of_no_keys<K: Key>(set: &mut BPlusTreeSet<K>, other: &mut BPlusTreeSet<K>)
    requires { other.old ≡ [] }
    ensures here { set.new ≡ set.old }
    ensures there { other.new ≡ [] }
{
    match set.append(other) {
        Ok(()) => {}
        Err(_) => unreachable!(),
    }
}

// Appending to an empty map never fails, and moves all pairs.
fn append_to_nothing<K: Key, V: Drop, A: Argument<K>>(
    map: &mut BPlusTreeMap<K, V, A>,
    other: &mut BPlusTreeMap<K, V, A>,
)
    requires { map.old ≡ [] }
    ensures there { other.new ≡ [] }
{
    match map.append(other) {
        Ok(()) => {}
        Err(_) => unreachable!(),
    }
}

// `Full` means that both maps have too many pairs together. If an allocation fails, they do not.
fn append_is_full<K: Key, V: Drop, A: Argument<K>>(
    map: &mut BPlusTreeMap<K, V, A>,
    other: &mut BPlusTreeMap<K, V, A>,
) -> Option<bool>
    ensures full { result ≡ Some true → 2 ^ 64 - 1 < length map.old + length other.old }
    ensures room { result ≡ Some false → length map.old + length other.old ≤ 2 ^ 64 - 1 }
    ensures unchanged { result ≢ None → (map.new ≡ map.old) × (other.new ≡ other.old) }
{
    match map.append(other) {
        Err(AppendError::Full) => Some(true),
        Err(AppendError::OutOfMemory) => Some(false),
        Ok(()) => None,
    }
}

// `Full` means that both sets have too many keys together. If an allocation fails, they do not.
fn append_of_keys_is_full<K: Key>(
    set: &mut BPlusTreeSet<K>,
    other: &mut BPlusTreeSet<K>,
) -> Option<bool>
    ensures full { result ≡ Some true → 2 ^ 64 - 1 < length set.old + length other.old }
    ensures room { result ≡ Some false → length set.old + length other.old ≤ 2 ^ 64 - 1 }
    ensures unchanged { result ≢ None → (set.new ≡ set.old) × (other.new ≡ other.old) }
{
    match set.append(other) {
        Err(AppendError::Full) => Some(true),
        Err(AppendError::OutOfMemory) => Some(false),
        Ok(()) => None,
    }
}

// An extension fails with `Full` only if the map has the greatest number of pairs after it. If an
// allocation fails, the map has fewer.
fn extend_is_full<K: Key, V: Drop, A: Argument<K>>(
    map: &mut BPlusTreeMap<K, V, A>,
    pairs: Vec<(K, V)>,
) -> Option<bool>
    ensures full { result ≡ Some true → length map.new ≡ 2 ^ 64 - 1 }
    ensures room { result ≡ Some false → length map.new ≢ 2 ^ 64 - 1 }
{
    match map.extend(pairs) {
        Err(InsertError::Full(..)) => Some(true),
        Err(InsertError::OutOfMemory(..)) => Some(false),
        Ok(()) => None,
    }
}

// An extension fails with `Full` only if the set has the greatest number of keys after it. If an
// allocation fails, the set has fewer.
fn extend_with_keys_is_full<K: Key>(set: &mut BPlusTreeSet<K>, keys: Vec<K>) -> Option<bool>
    ensures full { result ≡ Some true → length set.new ≡ 2 ^ 64 - 1 }
    ensures room { result ≡ Some false → length set.new ≢ 2 ^ 64 - 1 }
{
    match set.extend(keys) {
        Err(InsertError::Full(..)) => Some(true),
        Err(InsertError::OutOfMemory(..)) => Some(false),
        Ok(()) => None,
    }
}

// Extending a map by a vector keeps the last pair of each key, and other keys keep their values. If
// the call fails, the map is unchanged. `Full` means that both have too many pairs together.
fn puts_a_vector<K: Key, V: Drop, A: Argument<K>>(
    map: &mut BPlusTreeMap<K, V, A>,
    pairs: Vec<(K, V)>,
) -> Result<(), AppendError>
    ensures last { OnOk result (PutsLastOfEach K.cmp pairs.items map.new) }
    ensures others { OnOk result (KeepsOthers K.cmp pairs.items map.old map.new) }
    ensures failed { OnErr result (map.new ≡ map.old) }
    ensures full { result ≡ Err Full → 2 ^ 64 - 1 < length map.old + length pairs.items }
{
    map.recall();
    map.extend_from_vec(pairs)
}

// Extending a map by a slice puts clones of the pairs, and keeps what an extension by a vector
// keeps.
fn puts_a_slice<K: Key, V: Clone + Drop, A: Argument<K>>(
    map: &mut BPlusTreeMap<K, V, A>,
    pairs: &[(K, V)],
) -> Result<(), AppendError>
    ensures last { OnOk result (PutsCloneOfLast K.cmp V.is_clone pairs.now map.new) }
    ensures others { OnOk result (KeepsOthers K.cmp pairs.now map.old map.new) }
    ensures failed { OnErr result (map.new ≡ map.old) }
    ensures full { result ≡ Err Full → 2 ^ 64 - 1 < length map.old + length pairs.now }
{
    map.recall();
    map.extend_from_slice(pairs)
}

// Extending a set by a vector adds the vector's keys to those that it held. If the call fails, the
// set is unchanged. `Full` means that both have too many keys together.
fn puts_keys_of_a_vector<K: Key>(set: &mut BPlusTreeSet<K>, keys: Vec<K>) -> Result<(), AppendError>
    ensures held { OnOk result (HoldsEither K.cmp set.old keys.items set.new) }
    ensures failed { OnErr result (set.new ≡ set.old) }
    ensures full { result ≡ Err Full → 2 ^ 64 - 1 < length set.old + length keys.items }
{
    set.recall();
    set.extend_from_vec(keys)
}

// Extending a set by a slice adds clones of the slice's keys, and keeps what an extension by a
// vector keeps.
fn puts_keys_of_a_slice<K: Key>(set: &mut BPlusTreeSet<K>, keys: &[K]) -> Result<(), AppendError>
    ensures held { OnOk result (HoldsEither K.cmp set.old keys.now set.new) }
    ensures failed { OnErr result (set.new ≡ set.old) }
    ensures full { result ≡ Err Full → 2 ^ 64 - 1 < length set.old + length keys.now }
{
    set.recall();
    set.extend_from_slice(keys)
}

// Extending a map by an empty slice or an empty vector never fails, and changes nothing.
fn puts_no_pairs<K: Key, V: Clone + Drop, A: Argument<K>>(
    map: &mut BPlusTreeMap<K, V, A>,
    pairs: Vec<(K, V)>,
)
    requires { pairs.items ≡ [] }
    ensures { map.new ≡ map.old }
{
    match map.extend_from_slice(pairs.as_slice()) {
        Ok(()) => {}
        Err(_) => unreachable!(),
    }
    match map.extend_from_vec(pairs) {
        Ok(()) => {}
        Err(_) => unreachable!(),
    }
}

// Extending a set by an empty slice or an empty vector never fails, and changes nothing.
fn puts_no_keys<K: Key>(set: &mut BPlusTreeSet<K>, keys: Vec<K>)
    requires { keys.items ≡ [] }
    ensures { set.new ≡ set.old }
{
    match set.extend_from_slice(keys.as_slice()) {
        Ok(()) => {}
        Err(_) => unreachable!(),
    }
    match set.extend_from_vec(keys) {
        Ok(()) => {}
        Err(_) => unreachable!(),
    }
}

// A split that fails leaves all pairs in this map.
fn keeps_all_where_a_split_fails<K: Key, V: Drop, A: Argument<K>>(
    map: &mut BPlusTreeMap<K, V, A>,
    k: &K,
) -> bool
    ensures { result ≡ false → map.new ≡ map.old }
{
    match map.split_off(k) {
        Ok(_) => true,
        Err(_) => false,
    }
}

// Replacing a present key never fails.
fn replaces_a_present_key<K: Key>(set: &mut BPlusTreeSet<K>, k: K) -> Option<K>
    requires { holds K.cmp set.old k ≡ true }
    ensures { result ≡ key_found K.cmp set.old k }
{
    match set.replace(k) {
        Ok(gone) => gone,
        Err(_) => unreachable!(),
    }
}

// Replacing an absent key inserts it, or fails and returns it. If it fails, the set is unchanged.
fn replaces_an_absent_key<K: Key>(
    set: &mut BPlusTreeSet<K>,
    k: K,
) -> Result<Option<K>, InsertError<K, ()>>
    requires { holds K.cmp set.old k ≡ false }
    ensures back { IfErr result (λ error. (pair_of error).0 ≡ k) }
    ensures unchanged { OnErr result (set.new ≡ set.old) }
{
    set.replace(k)
}

// `Full` means that the set has the greatest number of keys. If an allocation fails, the set has
// fewer.
fn replace_is_full<K: Key>(set: &mut BPlusTreeSet<K>, k: K) -> Option<bool>
    ensures full { result ≡ Some true → length set.old ≡ 2 ^ 64 - 1 }
    ensures unchanged { result ≡ Some true → set.new ≡ set.old }
    ensures room { result ≡ Some false → length set.new ≢ 2 ^ 64 - 1 }
{
    match set.replace(k) {
        Err(InsertError::Full(..)) => Some(true),
        Err(InsertError::OutOfMemory(..)) => Some(false),
        _ => None,
    }
}
