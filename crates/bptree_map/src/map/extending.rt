//! The pairs of a vector or of a slice: all of them are put, or none.
ghost use Rattle.std.specs.Prelude.{◌≡◌, ◌+◌, ◌<◌, [], Err, IsOk, OnErr, OnOk, length};
ghost use Rattle.bptree_bulk.specs.Weave.{put_all, put_pair};
ghost use Rattle.bptree_keys.specs.Contents.{IsAscending};
ghost use Rattle.bptree_tree.specs.declared.AppendError.TheVariants.{Full};
ghost use Rattle.bptree_map.specs.Moving.{AreTooMany, PutsAll, PutsClonesIfOk};

use crate::gathering::load_map;
use crate::map::BPlusTreeMap;
use bptree_arguments::argument::Argument;
use bptree_keys::key::Key;
use bptree_load_plan::loading::{keep_last_of_each_run, sort_for_load};
use bptree_stores::node_stores::NodeStore;
use bptree_tree::AppendError;

impl<K: Key, V: Drop, A: Argument<K>> BPlusTreeMap<K, V, A> {
    /// Puts all pairs of a vector, or none. Of pairs with equal keys the last one stays, as in
    /// `from_iter`. A key that the map holds stays, and takes the value.
    ///
    /// O(m log m) comparisons to sort m pairs. If they are less than a sixth of the pairs of the
    /// map and no removal can fail, as `clones_never_fail` and `never_fails` say, it inserts them
    /// one by one, and removes them again if an allocation fails. Otherwise it makes a map of them,
    /// and costs what `append` of that map costs. It allocates room to sort more than 20 pairs, and
    /// then room for a key and a value of each pair and what the insertions allocate, or the nodes
    /// of the other map and what `append` allocates. If one of these fails, or a clone of a key or
    /// a summary of keys, the map is unchanged and the pairs are dropped. It returns `Full` only if
    /// the different keys of the vector and the pairs of the map are more than `usize::MAX`
    /// together. If the vector is empty, it allocates nothing and cannot fail.
    pub fn extend_from_vec(&mut self, pairs: Vec<(K, V)>) -> Result<(), AppendError>
        ensures ok { OnOk result (PutsAll K.cmp pairs.items self.old self.new) }
        ensures full { (result ≡ Err Full) → AreTooMany K.cmp usize.MAX pairs.items self.old }
        ensures unchanged { OnErr result (self.new ≡ self.old) }
        ensures infallible { pairs.items ≡ [] → IsOk result }
    {
        if pairs.is_empty() {
            return Ok(());
        }
        let mut pairs = pairs;
        if sort_for_load(&mut pairs).is_err() {
            return Err(AppendError::OutOfMemory);
        }
        keep_last_of_each_run(&mut pairs);
        self.extend_from_ascending(pairs)
    }

    // Puts all pairs of a vector whose keys ascend, or none.
    fn extend_from_ascending(&mut self, pairs: Vec<(K, V)>) -> Result<(), AppendError>
        requires { IsAscending K.cmp pairs.items }
        ensures ok { OnOk result (self.new ≡ put_all (put_pair K.cmp) self.old pairs.items) }
        ensures full { (result ≡ Err Full) → usize.MAX < length self.old + length pairs.items }
        ensures unchanged { OnErr result (self.new ≡ self.old) }
    {
        if pairs.len() > usize::MAX - self.len() {
            return Err(AppendError::Full);
        }
        if self.inner.takes_few(pairs.len()) {
            return match self.inner.insert_all(pairs) {
                Ok(()) => Ok(()),
                Err(_) => Err(AppendError::OutOfMemory),
            };
        }
        let Ok(mut other) = load_map(pairs) else {
            return Err(AppendError::OutOfMemory);
        };
        self.append(&mut other)
    }

    /// Puts a clone of each pair of a slice, or none, as `extend_from_vec` does.
    ///
    /// It clones m keys and m values, and costs what `extend_from_vec` of m pairs costs. It
    /// allocates a vector of m pairs, what the clones allocate, and what `extend_from_vec`
    /// allocates. If one of these fails, the clones are dropped and the map is unchanged. It
    /// returns `Full` if `extend_from_vec` does. If the slice is empty, it allocates nothing and
    /// cannot fail.
    ///
    /// O(m log m) to sort, and then what `append` takes.
    pub fn extend_from_slice(&mut self, pairs: &[(K, V)]) -> Result<(), AppendError>
    where
        V: Clone,
        ensures ok { PutsClonesIfOk K.cmp K.is_clone V.is_clone pairs.now self.old self.new result }
        ensures full { (result ≡ Err Full) → AreTooMany K.cmp usize.MAX pairs.now self.old }
        ensures unchanged { OnErr result (self.new ≡ self.old) }
        ensures infallible { pairs.now ≡ [] → IsOk result }
    {
        if pairs.is_empty() {
            return Ok(());
        }
        let Ok(clones) = pairs.to_vec(self.inner.node_store().allocator()) else {
            return Err(AppendError::OutOfMemory);
        };
        self.extend_from_vec(clones)
    }
}
