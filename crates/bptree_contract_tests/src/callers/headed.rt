//! Callers of keys with heads, and of maps that have them.
ghost use Rattle.std.specs.Prelude.{◌≡◌, IfOk, IsTrue, OnOk, OnErr};
ghost use Rattle.std.specs.declared.cmp.Ordering.TheVariants.{Less, Equal};
ghost use Rattle.std.specs.Option.{option_copied};
ghost use Rattle.bptree_keys.specs.Contents.{put, value};

use bptree_arguments::argument::Argument;
use bptree_heads::head::HasHead;
use bptree_heads::headed::Headed;
use bptree_map::map::BPlusTreeMap;
use std::alloc::AllocError;
use std::cmp::Ordering;

// Keys with heads are in the order of the keys.
fn orders_as_the_keys<K: HasHead>(first: K, second: K) -> Ordering
where
    K: Drop,
    ensures { result ≡ K.cmp first second }
{
    Headed::new(first).cmp(&Headed::new(second))
}

// A headed key returns the key that it was made of.
fn takes_the_key_out<K: HasHead>(key: K) -> K
    ensures { result ≡ key }
{
    Headed::new(key).into_key()
}

// A clone is equal to the original.
fn clones_an_equal_key<K: HasHead>(key: &Headed<K>) -> Result<Headed<K>, AllocError>
    ensures { IfOk result (λ clone. K.cmp key.now clone ≡ Equal) }
{
    key.clone()
}

// Of two keys the one with the smaller head is the smaller one.
fn has_smaller_head<K: HasHead>(first: &Headed<K>, second: &Headed<K>) -> bool
    ensures { IsTrue result → K.cmp first.now second.now ≡ Less }
{
    first.head() < second.head()
}

// A look-up finds the value at the key itself.
fn gets_by_head<'a, K: HasHead, V: Drop, A: Argument<Headed<K>>>(
    map: &'a BPlusTreeMap<Headed<K>, V, A>,
    key: K,
) -> Option<&'a V>
where
    K: Drop,
    ensures { option_copied result ≡ value K.cmp map.now key }
{
    map.get(&Headed::new(key))
}

// An insertion puts the pair of the key itself.
fn puts_by_head<K: HasHead, V: Drop, A: Argument<Headed<K>>>(
    map: &mut BPlusTreeMap<Headed<K>, V, A>,
    key: K,
    new: V,
) -> bool
where
    K: Drop,
    ensures put { IsTrue result → map.new ≡ put K.cmp map.old key new }
{
    map.insert(Headed::new(key), new).is_ok()
}
