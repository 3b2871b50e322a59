//! Loading of a map from byte strings, and removal of a pair by its index.
ghost use Rattle.std.specs.Prelude.{◌≡◌, ◌≤◌, None, Ok, IfOk, OnErr, length};
ghost use Rattle.bptree_c_maps.specs.ByteKeys.{by_bytes};
ghost use Rattle.bptree_c_maps.specs.Dict.{TakesValueAt};
ghost use Rattle.bptree_c_maps.specs.DictPages.{dict_pairs_of};
ghost use Rattle.bptree_keys.specs.Contents.{gather};

use crate::bytes::Bytes;
use crate::dict_handle::Dict;
use crate::record::Record;
use bptree_arguments::count::Count;
use bptree_map::map::BPlusTreeMap;
use bptree_probes::changing::value_of;
use std::alloc::{AllocError, Global};

/// Replaces the contents of a map by the given pairs: of equal keys the last one stays. O(n log n).
/// It fails if an allocation fails, or there are fewer bytes than the records say; then the map is
/// unchanged.
pub fn load_into(
    alloc: Global,
    dict: &mut Dict,
    bytes: &[u8],
    given: &[Record],
) -> Result<(), AllocError>
    ensures ok { IfOk result (λ _. dict.new ≡ gather by_bytes (dict_pairs_of bytes.now given.now)) }
    ensures unchanged { OnErr result (dict.new ≡ dict.old) }
{
    dict.pairs = gathered(alloc, bytes, given)?;
    Ok(())
}

fn gathered(
    alloc: Global,
    bytes: &[u8],
    given: &[Record],
) -> Result<BPlusTreeMap<Bytes, u64, Count>, AllocError>
    ensures { IfOk result (λ pairs. pairs ≡ gather by_bytes (dict_pairs_of bytes.now given.now)) }
{
    let copied = copies(alloc, bytes, given)?;
    BPlusTreeMap::from_iter(alloc, copied)
}

fn copies(alloc: Global, bytes: &[u8], given: &[Record]) -> Result<Vec<(Bytes, u64)>, AllocError>
    ensures { IfOk result (λ copied. copied.items ≡ dict_pairs_of bytes.now given.now) }
{
    let mut copied = Vec::with_capacity(alloc, given.len())?;
    let mut rest = given;
    let mut left = bytes;
    while let Some((record, tail)) = rest.split_first() {
        if left.len() < record.length {
            return Err(AllocError);
        }
        let (key, behind) = left.split_at(record.length);
        copied.push((Bytes::copy_of(alloc, key)?, record.value))?;
        left = behind;
        rest = tail;
    }
    Ok(copied)
}

/// Removes the pair at an index, and returns its value, or `None` past the end. O(log n). It fails
/// only if a copy of a key fails; then the map is unchanged.
pub fn remove_in(dict: &mut Dict, index: usize) -> Result<Option<u64>, AllocError>
    ensures ok { IfOk result (TakesValueAt dict.old index dict.new) }
    ensures past { length dict.old ≤ index → (result ≡ Ok None) × (dict.new ≡ dict.old) }
    ensures unchanged { OnErr result (dict.new ≡ dict.old) }
{
    value_of(dict.pairs.remove_index(index))
}
