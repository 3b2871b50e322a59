//! Calls that copy many pairs at once into a caller's array. These calls cannot fail.
ghost use Rattle.std.specs.Prelude.{◌≡◌, ◌≤◌, Some, None, reverse, take};
ghost use Rattle.std.specs.Ordering.{nat_cmp};
ghost use Rattle.bptree_c_maps.specs.Ends.{pairs_back_from, turned_pairs};
ghost use Rattle.bptree_c_maps.specs.Pairs.{IsCopied, IsPairTaken};
ghost use Rattle.bptree_keys.specs.Ends.{is_back};
ghost use Rattle.bptree_keys.specs.Ranges.{between, part};
ghost use Rattle.bptree_tree.specs.Pages.{page};

use crate::handle::Map;
use crate::number::Number;
use crate::pair::Pair;
use bptree_arguments::count::Count;
use bptree_keys::end::End;
use bptree_map::map::Iter;
use bptree_probes::reading::{end_by, start_by};

/// Returns the pairs of a page. O(log n). It allocates nothing and cannot fail.
pub fn page_in(map: &Map, number: usize, size: usize) -> Iter<'_, u64, u64, Count>
    requires { 1 ≤ size }
    ensures { result ≡ page map.now number size }
{
    match map.pairs.page(number, size) {
        Ok(pairs) => pairs,
        Err(_) => unreachable!(),
    }
}

/// Returns at most `n` pairs from the least key that is at least `key`. O(log n). It allocates
/// nothing and cannot fail.
pub fn pairs_from(map: &Map, key: u64, n: usize) -> Iter<'_, u64, u64, Count>
    ensures { result ≡ take n (between nat_cmp map.now (Some key) None) }
{
    part_of(map, start_by(&map.pairs, &Number { key }), n)
}

/// Returns at most `n` pairs from an index on. O(log n). It allocates nothing and cannot fail.
pub fn part_of(map: &Map, index: usize, n: usize) -> Iter<'_, u64, u64, Count>
    ensures { result ≡ part map.now index n }
{
    match map.pairs.range_by_argument(index, n) {
        Ok(pairs) => pairs,
        Err(_) => unreachable!(),
    }
}

/// Returns at most `n` pairs up to the greatest key that is at most `key`. O(log n). It allocates
/// nothing and cannot fail.
pub fn pairs_up_to(map: &Map, key: u64, n: usize) -> Iter<'_, u64, u64, Count>
    ensures { reverse result ≡ take n (pairs_back_from map.now key) }
{
    let end = end_by(&map.pairs, &Number { key });
    if n < end {
        part_of(map, end - n, n)
    } else {
        part_of(map, 0, end)
    }
}

/// Copies the pairs one after another from an end, and returns their number. O(1) a pair. It
/// allocates nothing and cannot fail.
pub fn copy(mut left: Iter<'_, u64, u64, Count>, end: End, out: &mut [Pair]) -> usize
    ensures { IsCopied (turned_pairs (is_back end) left.entry) out.old out.new result }
{
    let mut count = 0;
    while count < out.len() {
        match take_pair(&mut left, end) {
            Some(pair) => {
                out[count] = pair;
                count += 1;
            }
            None => return count,
        }
    }
    count
}

// Takes the pair at an end.
fn take_pair(left: &mut Iter<'_, u64, u64, Count>, end: End) -> Option<Pair>
    ensures { IsPairTaken (turned_pairs (is_back end) left.old) result (turned_pairs (is_back end) left.new) }
{
    let taken = match end {
        End::Front => left.next(),
        End::Back => left.next_back(),
    };
    match taken {
        Some((key, value)) => Some(Pair {
            key: *key,
            value: *value,
        }),
        None => None,
    }
}
