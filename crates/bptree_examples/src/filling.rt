//! Makes and changes maps of any keys, values and summaries.

use std::alloc::{AllocError, Global};
use sweep_bptree::{Argument, BPlusTreeMap, Key};

/// Returns a map of pairs, which are inserted one after another.
pub fn filled<K: Key + Copy, V: Copy, A: Argument<K>>(
    alloc: Global,
    pairs: &[(K, V)],
) -> Result<BPlusTreeMap<K, V, A>, AllocError> {
    let mut map = BPlusTreeMap::new(alloc)?;
    for (key, value) in pairs {
        if map.insert(*key, *value).is_err() {
            return Err(AllocError);
        }
    }
    Ok(map)
}

/// Removes the pair with a key, if there is one.
pub fn removed<K: Key, V: Drop, A: Argument<K>>(
    map: &mut BPlusTreeMap<K, V, A>,
    key: &K,
) -> Result<(), AllocError> {
    map.remove(key)?;
    Ok(())
}
