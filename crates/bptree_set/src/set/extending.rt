//! The keys of a vector or of a slice: all of them are inserted, or none.
ghost use Rattle.std.specs.Prelude.{◌≡◌, [], Err, IfOk, IsOk, OnErr, OnOk};
ghost use Rattle.std.specs.List.{AllZip};
ghost use Rattle.std.specs.Map.{keys_of};
ghost use Rattle.bptree_tree.specs.declared.AppendError.TheVariants.{Full};
ghost use Rattle.bptree_map.specs.Moving.{AreTooManyKeys, PutsAllKeys, PutsKeyClones};

use crate::set::BPlusTreeSet;
use bptree_keys::key::Key;
use bptree_stores::node_stores::NodeStore;
use bptree_tree::AppendError;
use std::alloc::{AllocError, Global};

// The keys as pairs with the unit value.
fn pairs_of<K: Key>(keys: Vec<K>) -> Result<Vec<(K, ())>, AllocError>
    ensures { IfOk result (λ pairs. keys_of pairs.items ≡ keys.items) }
{
    let mut pairs = Vec::with_capacity(*keys.allocator(), keys.len())?;
    for k in keys {
        pairs.push((k, ()))?;
    }
    Ok(pairs)
}

// Clones of the keys, as pairs with the unit value.
fn clones_of<K: Key>(alloc: Global, keys: &[K]) -> Result<Vec<(K, ())>, AllocError>
    ensures { IfOk result (λ pairs. AllZip K.is_clone keys.now (keys_of pairs.items)) }
{
    let mut pairs = Vec::with_capacity(alloc, keys.len())?;
    for k in keys {
        pairs.push((k.clone()?, ()))?;
    }
    Ok(pairs)
}

impl<K: Key> BPlusTreeSet<K> {
    /// Inserts all keys of a vector, or none. Of equal keys the last one stays, as in `from_iter`.
    /// A key that the set holds stays, and the one that equals it is dropped.
    ///
    /// O(m log m) comparisons to sort m keys. If they are less than a sixth of the keys of the set
    /// and no clone of a key can fail, as `clones_never_fail` says, it inserts them one by one, and
    /// removes them again if an allocation fails. Otherwise it makes a set of them, and costs what
    /// `append` of that set costs. It allocates a second vector of m keys, room to sort more than
    /// 20, and then room for m keys and what the insertions allocate, or the nodes of the other set
    /// and what `append` allocates. If one of these fails, or a clone of a key, the set is
    /// unchanged and the keys are dropped. It returns `Full` only if the different keys of the
    /// vector and the keys of the set are more than `usize::MAX` together. If the vector is empty,
    /// it allocates nothing and cannot fail.
    pub fn extend_from_vec(&mut self, keys: Vec<K>) -> Result<(), AppendError>
        ensures ok { OnOk result (PutsAllKeys K.cmp keys.items self.old self.new) }
        ensures full { (result ≡ Err Full) → AreTooManyKeys K.cmp usize.MAX keys.items self.old }
        ensures unchanged { OnErr result (self.new ≡ self.old) }
        ensures infallible { keys.items ≡ [] → IsOk result }
    {
        if keys.is_empty() {
            return Ok(());
        }
        let Ok(pairs) = pairs_of(keys) else {
            return Err(AppendError::OutOfMemory);
        };
        self.map.extend_from_vec(pairs)
    }

    /// Inserts a clone of each key of a slice, or none, as `extend_from_vec` does.
    ///
    /// It clones m keys, and costs what `extend_from_vec` of m keys costs. It allocates a vector of
    /// m keys, what the clones allocate, room to sort more than 20, the nodes of a set of them, and
    /// what `append` allocates. If one of these fails, the clones are dropped and the set is
    /// unchanged. It returns `Full` if `extend_from_vec` does. If the slice is empty, it allocates
    /// nothing and cannot fail.
    ///
    /// O(m log m) to sort, and then what `append` takes.
    pub fn extend_from_slice(&mut self, keys: &[K]) -> Result<(), AppendError>
        ensures ok { OnOk result (PutsKeyClones K.cmp K.is_clone keys.now self.old self.new) }
        ensures full { (result ≡ Err Full) → AreTooManyKeys K.cmp usize.MAX keys.now self.old }
        ensures unchanged { OnErr result (self.new ≡ self.old) }
        ensures infallible { keys.now ≡ [] → IsOk result }
    {
        if keys.is_empty() {
            return Ok(());
        }
        let Ok(pairs) = clones_of(self.tree().node_store().allocator(), keys) else {
            return Err(AppendError::OutOfMemory);
        };
        self.map.extend_from_vec(pairs)
    }
}
