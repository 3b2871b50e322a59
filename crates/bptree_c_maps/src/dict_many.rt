//! Calls of a map from byte strings that copy many pairs at once into a caller's arrays. These
//! calls cannot fail.
ghost use Rattle.std.specs.Prelude.{◌≡◌, ◌+◌, ◌-◌, ◌≤◌, ◌++◌, length, reverse, take, drop};
ghost use Rattle.std.specs.Map.{keys_of, values_of};
ghost use Rattle.std.specs.Map.Iter.{deref_pair};
ghost use Rattle.std.specs.Option.{option_map};
ghost use Rattle.bptree_arguments.specs.CountLaws.{count_below};
ghost use Rattle.bptree_c_maps.specs.ByteKeys.{by_bytes};
ghost use Rattle.bptree_c_maps.specs.Dict.{Pairs};
ghost use Rattle.bptree_c_maps.specs.DictPages.{IsPage};
ghost use Rattle.bptree_c_maps.specs.Ends.{EndTakesNext, back_before, turned_pairs};
ghost use Rattle.bptree_keys.specs.Ends.{is_back};
ghost use Rattle.bptree_keys.specs.Ranges.{part};

use crate::bytes::{Bytes, View};
use crate::dict_handle::Dict;
use crate::record::Record;
use bptree_arguments::count::Count;
use bptree_keys::end::End;
use bptree_map::map::Iter;
use bptree_probes::reading::smaller_than;

/// Returns at most `n` pairs from an index on. O(log n). It allocates nothing and cannot fail.
pub fn part_of(dict: &Dict, index: usize, n: usize) -> Iter<'_, Bytes, u64, Count>
    ensures { result ≡ part dict.now index n }
{
    match dict.pairs.range_by_argument(index, n) {
        Ok(pairs) => pairs,
        Err(_) => unreachable!(),
    }
}

/// Copies the values one after another, and returns their number. O(1) a value. It allocates
/// nothing and cannot fail.
pub fn copy_values(mut left: Iter<'_, Bytes, u64, Count>, out: &mut [u64]) -> usize
    requires { length left ≤ length out.old }
    ensures count { result ≡ length left.entry }
    ensures copied { out.new ≡ values_of left.entry ++ drop result out.old }
{
    let mut count = 0;
    while count < out.len() {
        match left.next() {
            Some((_, value)) => {
                out[count] = *value;
                count += 1;
            }
            None => return count,
        }
    }
    count
}

/// Returns at most `n` pairs before an index. O(log n). It allocates nothing and cannot fail.
pub fn part_before(dict: &Dict, index: usize, n: usize) -> Iter<'_, Bytes, u64, Count>
    ensures { reverse result ≡ back_before dict.now index n }
{
    let end = clipped(index, dict.pairs.len());
    if n < end {
        part_of(dict, end - n, n)
    } else {
        part_of(dict, 0, end)
    }
}

// An index into a list of `len` members, at most its end.
fn clipped(index: usize, len: usize) -> usize
    ensures within { result ≤ len }
    ensures as_far { (l : Pairs) → length l ≡ len → take result l ≡ take index l }
{
    if index < len { index } else { len }
}

/// Copies the pairs one after another from an end, and returns their number. O(1) a pair beside its
/// bytes. It allocates nothing and cannot fail.
pub fn copy_pairs(
    mut left: Iter<'_, Bytes, u64, Count>,
    end: End,
    bytes: &mut [u8],
    out: &mut [Record],
) -> usize
    requires { length left ≤ length out.old }
    ensures { IsPage (turned_pairs (is_back end) left.entry) bytes.old out.old bytes.new out.new result }
{
    let mut count = 0;
    let mut used = 0;
    while count < out.len() {
        match take_entry(&mut left, end) {
            Some((key, value)) => {
                let length = key.as_slice().len();
                if bytes.len() - used < length {
                    return count;
                }
                write_at(key.as_slice(), used, bytes);
                used += length;
                out[count] = Record {
                    length,
                    value: *value,
                };
                count += 1;
            }
            None => return count,
        }
    }
    count
}

// Takes the pair at an end.
fn take_entry<'a>(left: &mut Iter<'a, Bytes, u64, Count>, end: End) -> Option<(&'a Bytes, &'a u64)>
    ensures { EndTakesNext (turned_pairs (is_back end) left.old) (option_map deref_pair result) (turned_pairs (is_back end) left.new) }
{
    match end {
        End::Front => left.next(),
        End::Back => left.next_back(),
    }
}

fn write_at(key: &[u8], at: usize, out: &mut [u8])
    requires { at + length key.now ≤ length out.old }
    ensures { out.new ≡ take at out.old ++ (key.now ++ drop (at + length key.now) out.old) }
{
    out[at..at + key.len()].copy_from_slice(key);
}

/// Returns the number of keys that are smaller than a key. O(log n). It allocates nothing and cannot
/// fail.
pub fn smaller_in(dict: &Dict, key: &[u8]) -> usize
    ensures { result ≡ count_below by_bytes key.now (keys_of dict.now) }
{
    smaller_than(&dict.pairs, &View::of(key))
}
