//! Callers of look-ups by a probe, with a key as the probe.
ghost use Rattle.std.specs.Prelude.{◌≡◌, ◌∷◌, [], None, Some, true};

use bptree_arguments::argument::Argument;
use bptree_arguments::count::Count;
use bptree_keys::key::Key;
use bptree_map::map::BPlusTreeMap;
use bptree_probes::cursors::{lower_bound_by, upper_bound_by};
use bptree_probes::reading::has_by;

// A key that is a probe finds what a look-up of the key finds.
fn finds_as_a_key<K: Key, V: Drop, A: Argument<K>>(
    map: &BPlusTreeMap<K, V, A>,
    key: &K,
) -> (bool, bool)
    ensures { result.0 ≡ result.1 }
{
    (has_by(map, key), map.contains_key(key))
}

// Of two pairs, the second one is the first from its key on, and the first one above the first key.
// None is above the second key.
fn bounds_of_two(map: &BPlusTreeMap<u64, u64, Count>) -> bool
    requires { map.now ≡ (1, 10) ∷ (2, 20) ∷ [] }
    ensures { result ≡ true }
{
    matches!(lower_bound_by(map, &2), Ok(Some((_, 20))))
        && matches!(upper_bound_by(map, &1), Ok(Some((_, 20))))
        && matches!(upper_bound_by(map, &2), Ok(None))
}
