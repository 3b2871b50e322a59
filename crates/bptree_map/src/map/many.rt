//! Calls for many keys at once.
ghost use Rattle.std.specs.Prelude.{◌≡◌, ◌<◌, ◌≤◌, ◌^◌, [], Err, IfOk, IsOk, IsTrue, OnErr, OnOk, Some, length, map, slice_get, take};
ghost use Rattle.std.specs.List.{zip};
ghost use Rattle.std.specs.Map.Iter.{deref_pair};
ghost use Rattle.std.specs.Option.{option_copied, option_map};
ghost use Rattle.bptree_batches.specs.Each.{found_each, pairs_each, ranked_each, read_each, values_each};
ghost use Rattle.bptree_keys.specs.Contents.{IsAscending, has};
ghost use Rattle.bptree_keys.specs.Keys.{AllInfallible};
ghost use Rattle.bptree_map.specs.Many.{AreColumns, PutsColumns, removed_each, without_each};
ghost use Rattle.bptree_map.specs.Moving.{AreTooMany};
ghost use Rattle.bptree_tree.specs.declared.AppendError.TheVariants.{Full};

use crate::map::BPlusTreeMap;
use bptree_arguments::argument::Argument;
use bptree_arguments::count::Count;
use bptree_batches::many;
use bptree_keys::key::Key;
use bptree_stores::node_stores::NodeStore;
use bptree_tree::AppendError;
use std::alloc::{AllocError, Global};

// A vector of a clone of each key with the value at its index.
fn pairs_of<K: Key, V: Copy + Drop>(
    keys: &[K],
    values: &[V],
    alloc: Global,
) -> Result<Vec<(K, V)>, AllocError>
    requires { length values.now ≡ length keys.now }
    ensures { IfOk result (λ pairs. AreColumns K.is_clone keys.now values.now pairs.items) }
{
    let mut pairs = Vec::with_capacity(alloc, keys.len())?;
    let mut at = 0;
    'keys: while at < keys.len() {
        pairs.push_reserved((keys[at].clone()?, values[at]));
        at += 1;
    }
    Ok(pairs)
}

impl<K: Key, V: Drop, A: Argument<K>> BPlusTreeMap<K, V, A> {
    /// Writes a reference to the value at each key to `found`, at the key's index, or `None` if the
    /// key is absent. `found` has the length of `keys`. The keys may be in any order, and a key may
    /// occur more than once.
    ///
    /// O(k log n) for k keys. The descents of 16 keys run side by side. It does not change the cached
    /// leaf. It allocates nothing and cannot fail.
    pub fn get_many<'a>(&'a self, keys: &[K], found: &mut [Option<&'a V>])
        requires { length found.old ≡ length keys.now }
        ensures { map option_copied found.new ≡ values_each K.cmp self.now keys.now }
    {
        many::get_many(self.inner.nodes(), keys, found);
    }

    /// Writes to `found` whether the map contains each key, at the key's index. `found` has the
    /// length of `keys`.
    ///
    /// O(k log n) for k keys, as `get_many`. It allocates nothing and cannot fail.
    pub fn contains_many(&self, keys: &[K], found: &mut [bool])
        requires { length found.old ≡ length keys.now }
        ensures { found.new ≡ found_each K.cmp self.now keys.now }
    {
        many::mark_many(self.inner.nodes(), keys, found, true, false);
    }

    /// Removes the keys one after another, writes what `remove` returns for each to `removed`, at
    /// the key's index, and returns how many keys it was done for: all of them, or those before the
    /// first key whose removal failed. `removed` has the length of `keys`.
    ///
    /// O(k log n) for k keys. In a large map it looks up the next keys side by side before it removes
    /// them. It allocates what the removals allocate, and stops if one of them fails: never, if
    /// clones of the keys and summaries never fail.
    pub fn remove_many(&mut self, keys: &[K], removed: &mut [Option<V>]) -> usize
        requires { length removed.old ≡ length keys.now }
        ensures within { result ≤ length keys.now }
        ensures left { self.new ≡ without_each K.cmp self.old (take result keys.now) }
        ensures removed { removed.new ≡ removed_each K.cmp self.old (take result keys.now) removed.old }
        ensures infallible { A.needs_no_memory → AllInfallible K.is_infallible → result ≡ length keys.now }
        ensures stops { (k : K) → slice_get keys.now result ≡ Some k → IsTrue (has K.cmp self.new k) }
    {
        let mut at = 0;
        let mut ahead = 0;
        'keys: while at < keys.len() {
            ahead = many::read_ahead(self.inner.nodes(), keys, at, ahead);
            match self.remove(&keys[at]) {
                Ok(value) => removed[at] = value,
                Err(_) => return at,
            }
            at += 1;
        }
        at
    }

    /// Inserts a clone of each key with the value at its index, all of them or none. Of equal keys
    /// the last one is inserted, with its value. A key that the map contains stays, and gets the
    /// new value.
    /// `values` has the length of `keys`.
    ///
    /// O(k log k) to sort, and then the cost of `append`. It clones k keys, and allocates a vector
    /// of k pairs and what `extend_from_vec` of that vector allocates. If one of these fails, the
    /// map is unchanged. It returns `Full` if `extend_from_vec` does. For no keys it allocates
    /// nothing and cannot fail.
    pub fn extend_from_columns(&mut self, keys: &[K], values: &[V]) -> Result<(), AppendError>
    where
        V: Copy,
        requires { length values.now ≡ length keys.now }
        ensures ok { OnOk result (PutsColumns K.cmp K.is_clone keys.now values.now self.old self.new) }
        ensures full { (result ≡ Err Full) → AreTooMany K.cmp usize.MAX (zip keys.now values.now) self.old }
        ensures unchanged { OnErr result (self.new ≡ self.old) }
        ensures infallible { keys.now ≡ [] → IsOk result }
    {
        if keys.is_empty() {
            return Ok(());
        }
        let Ok(pairs) = pairs_of(keys, values, self.inner.node_store().allocator()) else {
            return Err(AppendError::OutOfMemory);
        };
        self.extend_from_vec(pairs)
    }

    /// Inserts keys and values as `extend_from_columns` does. For each key, it writes to `found`
    /// whether the map contained the key before, and if so its value to `old`, at the key's index.
    /// All slices have the length of `keys`.
    ///
    /// O(k log n) to read, O(k log k) to sort, and then the cost of `append`. It allocates what
    /// `extend_from_columns` allocates. If it fails, the map is unchanged, and `old` and `found`
    /// are written all the same.
    pub fn insert_many(
        &mut self,
        keys: &[K],
        values: &[V],
        old: &mut [V],
        found: &mut [bool],
    ) -> Result<(), AppendError>
    where
        V: Copy,
        requires values { length values.now ≡ length keys.now }
        requires old { length old.old ≡ length keys.now }
        requires found { length found.old ≡ length keys.now }
        ensures ok { OnOk result (PutsColumns K.cmp K.is_clone keys.now values.now self.old self.new) }
        ensures full { (result ≡ Err Full) → AreTooMany K.cmp usize.MAX (zip keys.now values.now) self.old }
        ensures unchanged { OnErr result (self.new ≡ self.old) }
        ensures infallible { keys.now ≡ [] → IsOk result }
        ensures values { old.new ≡ read_each K.cmp self.old keys.now old.old }
        ensures found { found.new ≡ found_each K.cmp self.old keys.now }
    {
        many::copy_many(self.inner.nodes(), keys, old, found, true, false);
        self.extend_from_columns(keys, values)
    }
}

impl<K: Key, V: Drop> BPlusTreeMap<K, V, Count> {
    /// Writes the number of smaller keys of the map for each given key to `ranks`, at the key's
    /// index. `ranks` has the length of `keys`.
    ///
    /// O(k log n) for k keys: the descents of `get_many`, which also read counts. It allocates
    /// nothing and cannot fail.
    pub fn rank_many(&self, keys: &[K], ranks: &mut [usize])
        requires { length ranks.old ≡ length keys.now }
        ensures ranks { ranks.new ≡ ranked_each K.cmp self.now keys.now }
        ensures ascending { IsAscending K.cmp self.now }
        ensures fits { length self.now < 2 ^ 64 }
    {
        many::rank_many(self.inner.nodes(), keys, ranks);
    }

    /// Writes references to the pair at each index in the order of the keys, or `None` past the
    /// last pair. `found` has the length of `indexes`. The indexes may be in any order.
    ///
    /// O(k log n) for k indexes: 16 descents run side by side. It allocates nothing and cannot
    /// fail.
    pub fn get_index_many<'a>(&'a self, indexes: &[usize], found: &mut [Option<(&'a K, &'a V)>])
        requires { length found.old ≡ length indexes.now }
        ensures { map (option_map deref_pair) found.new ≡ pairs_each self.now indexes.now }
    {
        many::get_index_many(self.inner.nodes(), indexes, found);
    }
}
