//! Replacement of a key by one that equals it.
ghost use Rattle.std.specs.Prelude.{IfErr, IfOk, IsOk, IsTrue, OnErr};
ghost use Rattle.bptree_keys.specs.Contents.{has};
ghost use Rattle.bptree_tree.specs.Changes.{IsReplaceFailure, ReplacesKeyOf};
ghost use Rattle.bptree_tree.specs.Returning.{ReturnsKey};
ghost use Rattle.bptree_tree.specs.Whole.{IsWhole, IsUntouched};

use crate::ReplaceError;
use crate::tree::BPlusTree;
use bptree_removal::{removal, replacement};
use bptree_stores::node_stores::NodeStore;

impl<S: NodeStore> BPlusTree<S> {
    /// Replaces the key that equals `k` by `k`, and returns it. Its value stays.
    ///
    /// O(log n): one descent. The summaries above the key are computed again. Only they can
    /// allocate, so without summaries the call never fails for a key that is present. If no key
    /// equals `k`, or if an allocation fails, the error returns `k`, and the tree is unchanged,
    /// node by node.
    pub fn replace_key(&mut self, k: S::K) -> Result<S::K, ReplaceError<S::K>>
        ensures ok { IfOk result (ReplacesKeyOf S.K.cmp k self.old.contents self.new.contents) }
        ensures err { IfErr result (ReturnsKey k self.old.contents self.new.contents) }
        ensures kind { IfErr result (IsReplaceFailure S.K.cmp self.old.contents) }
        ensures whole { IsWhole S.K.cmp S.Argument.is_summary S.slots self.new }
        ensures unchanged { OnErr result (IsUntouched S.slots self.new self.old) }
        ensures infallible { S.Argument.needs_no_memory → IsTrue (has S.K.cmp self.old.contents k) → IsOk result }
    {
        self.nodes.recall();
        let Some(at) = removal::find_entry(&self.nodes, &mut self.path, &k) else {
            return Err(ReplaceError::Absent(k));
        };
        match replacement::replace_entry(&mut self.nodes, &mut self.path, at, k) {
            Ok(old) => Ok(old),
            Err(k) => Err(ReplaceError::OutOfMemory(k)),
        }
    }
}
