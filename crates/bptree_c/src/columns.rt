//! Pairs of a map of numbers as two arrays, of keys and of values.
ghost use Rattle.std.specs.Prelude.{◌≡◌, ◌++◌, ℕ, List, Some, drop, length};
ghost use Rattle.std.specs.Map.{keys_of, values_of};
ghost use Rattle.bptree_keys.specs.Ranges.{part};

use bptree_c_maps::columns::copy_columns;
use bptree_c_maps::handle::Handle;
use bptree_c_maps::many::part_of;

/// Copies the pairs from an index on, in the order of their keys, until the arrays are full or no
/// pairs are left: each key to `keys`, and its value to `values`, which has the same length. It
/// returns the number of pairs.
///
/// O(log n), and O(1) a pair. It allocates nothing and cannot fail.
#[unsafe(no_mangle)]
pub extern "C" fn bptree_copy(
    map: &mut Handle,
    index: usize,
    keys: &mut [u64],
    values: &mut [u64],
) -> usize
    ghost pairs: { List (ℕ × ℕ) }
    requires open { map.old.held ≡ Some pairs }
    requires values { length values.old ≡ length keys.old }
    ensures kept { map.new.held ≡ Some pairs }
    ensures count { result ≡ length (part pairs index (length keys.old)) }
    ensures keys { keys.new ≡ keys_of (part pairs index (length keys.old)) ++ drop result keys.old }
    ensures values { values.new ≡ values_of (part pairs index (length keys.old)) ++ drop result values.old }
{
    let pairs = part_of(map.peek(), index, keys.len());
    copy_columns(pairs, keys, values)
}
