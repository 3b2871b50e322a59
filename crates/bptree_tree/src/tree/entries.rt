//! Reads of one pair: by its key, and at both ends.
ghost use Rattle.std.specs.Prelude.{◌≡◌, false, slice_get, IfOk, IfErr};
ghost use Rattle.std.specs.Option.{option_map};
ghost use Rattle.bptree_keys.specs.Contents.{has, last_member};
ghost use Rattle.bptree_tree.specs.Entries.{IsFoundAt, entry};
ghost use Rattle.std.specs.Map.Iter.{deref_pair};

use crate::tree::BPlusTree;
use bptree_keys::node_id::Position;
use bptree_search::neighbours::locate;
use bptree_stores::node_stores::NodeStore;

impl<S: NodeStore> BPlusTree<S> {
    /// Whether a key equals `k`.
    ///
    /// O(log n). It allocates nothing and cannot fail.
    pub fn contains_key(&self, k: &S::K) -> bool
        ensures { result ≡ has S.K.cmp self.now.contents k.now }
    {
        self.get(k).is_some()
    }

    /// The pair whose key equals `k`, with the stored key, or `None`.
    ///
    /// O(log n). It allocates nothing and cannot fail.
    pub fn get_key_value(&self, k: &S::K) -> Option<(&S::K, &S::V)>
        ensures { option_map deref_pair result ≡ entry S.K.cmp self.now.contents k.now }
    {
        match self.find(k) {
            Ok((_, pair)) => Some(pair),
            Err(_) => None,
        }
    }

    // The pair whose key equals `k`, with its position; otherwise the position at which the key
    // would be inserted.
    #[inline(always)]
    pub(crate) fn find(&self, k: &S::K) -> Result<(Position, (&S::K, &S::V)), Position>
        ensures found { IfOk result (IsFoundAt S.K.cmp self.now.contents k.now) }
        ensures absent { IfErr result (λ _. has S.K.cmp self.now.contents k.now ≡ false) }
    {
        let nodes = &self.nodes;
        match locate(nodes, k) {
            Ok(at) => Ok((at, nodes.store.get_leaf(at.leaf).data_at(at.slot))),
            Err(at) => Err(at),
        }
    }

    /// The pair with the least key, or `None`. It is `first` under the name that `BTreeMap` has.
    ///
    /// O(log n). It allocates nothing and cannot fail.
    pub fn first_key_value(&self) -> Option<(&S::K, &S::V)>
        ensures { option_map deref_pair result ≡ slice_get self.now.contents 0 }
    {
        self.first()
    }

    /// The pair with the greatest key, or `None`. It is `last` under the name that `BTreeMap` has.
    ///
    /// O(log n). It allocates nothing and cannot fail.
    pub fn last_key_value(&self) -> Option<(&S::K, &S::V)>
        ensures { option_map deref_pair result ≡ last_member self.now.contents }
    {
        self.last()
    }
}
