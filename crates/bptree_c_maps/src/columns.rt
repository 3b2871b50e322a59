//! Pairs of a map of numbers as two arrays, of keys and of values.
ghost use Rattle.std.specs.Prelude.{◌≡◌, ◌≤◌, ◌++◌, drop, length};
ghost use Rattle.std.specs.Map.{keys_of, values_of};

use bptree_arguments::count::Count;
use bptree_map::map::Iter;

/// Copies the pairs one after another, and returns their number. O(1) a pair. It allocates nothing
/// and cannot fail.
pub fn copy_columns(
    mut left: Iter<'_, u64, u64, Count>,
    keys: &mut [u64],
    values: &mut [u64],
) -> usize
    requires values { length values.old ≡ length keys.old }
    requires room { length left ≤ length keys.old }
    ensures count { result ≡ length left.entry }
    ensures keys { keys.new ≡ keys_of left.entry ++ drop result keys.old }
    ensures values { values.new ≡ values_of left.entry ++ drop result values.old }
{
    let mut count = 0;
    while count < keys.len() {
        match left.next() {
            Some((key, value)) => {
                keys[count] = *key;
                values[count] = *value;
                count += 1;
            }
            None => return count,
        }
    }
    count
}
