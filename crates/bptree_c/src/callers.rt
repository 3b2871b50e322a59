//! Callers of the exports of a map of numbers, which use only the contracts of these.
ghost use Rattle.std.specs.Prelude.{◌≡◌, ◌∷◌, ℕ, List, [], Some, true, unwrap_or};
ghost use Rattle.std.specs.Ordering.{nat_cmp};
ghost use Rattle.bptree_keys.specs.Contents.{value};

use crate::batch::bptree_get_many;
use crate::many::bptree_range;
use crate::reading::{bptree_at, bptree_first, bptree_get, bptree_last, bptree_next, bptree_prev};
use crate::writing::{bptree_del, bptree_del_at, bptree_pop_first, bptree_pop_last, bptree_put};
use bptree_c_maps::handle::Handle;
use bptree_c_maps::pair::Pair;

// `bptree_get` writes the value at a key, and not the key.
fn finds_the_value(map: &mut Handle) -> bool
    requires open { map.old.held ≡ Some ((7, 70) ∷ []) }
    ensures { result ≡ true }
{
    let mut found = 0;
    bptree_get(map, 7, &mut found) && found == 70
}

// `bptree_pop_last` removes the greater of two pairs.
fn takes_the_greater(map: &mut Handle) -> bool
    requires open { map.old.held ≡ Some ((1, 10) ∷ (2, 20) ∷ []) }
    ensures { result ≡ true }
{
    let mut pair = Pair { key: 0, value: 0 };
    bptree_pop_last(map, &mut pair) == 1 && pair.key == 2 && pair.value == 20
}

// `bptree_del` removes a key that is present, and returns its value, whatever the allocator does.
fn deletes_the_only(map: &mut Handle) -> (u32, u64)
    requires open { map.old.held ≡ Some ((7, 70) ∷ []) }
    ensures returned { result ≡ (1, 70) }
    ensures left { map.new.held ≡ Some [] }
{
    let mut old = 0;
    let code = bptree_del(map, 7, &mut old);
    (code, old)
}

// A caller that ignores the result has the value, or what it had before.
fn value_or(map: &mut Handle, key: u64, other: u64) -> u64
    ghost pairs: { List (ℕ × ℕ) }
    requires open { map.old.held ≡ Some pairs }
    ensures { result ≡ unwrap_or (value nat_cmp pairs key) other }
{
    let mut found = other;
    bptree_get(map, key, &mut found);
    found
}

// Without a pair nothing is written: `pair` is unchanged.
fn first_or_same(map: &mut Handle) -> bool
    ghost pairs: { List (ℕ × ℕ) }
    requires open { map.old.held ≡ Some pairs }
    ensures { result ≡ true }
{
    let mut pair = Pair { key: 5, value: 6 };
    bptree_first(map, &mut pair) || (pair.key == 5 && pair.value == 6)
}

fn last_or_same(map: &mut Handle) -> bool
    ghost pairs: { List (ℕ × ℕ) }
    requires open { map.old.held ≡ Some pairs }
    ensures { result ≡ true }
{
    let mut pair = Pair { key: 5, value: 6 };
    bptree_last(map, &mut pair) || (pair.key == 5 && pair.value == 6)
}

fn next_or_same(map: &mut Handle, key: u64) -> bool
    ghost pairs: { List (ℕ × ℕ) }
    requires open { map.old.held ≡ Some pairs }
    ensures { result ≡ true }
{
    let mut pair = Pair { key: 5, value: 6 };
    bptree_next(map, key, &mut pair) || (pair.key == 5 && pair.value == 6)
}

fn prev_or_same(map: &mut Handle, key: u64) -> bool
    ghost pairs: { List (ℕ × ℕ) }
    requires open { map.old.held ≡ Some pairs }
    ensures { result ≡ true }
{
    let mut pair = Pair { key: 5, value: 6 };
    bptree_prev(map, key, &mut pair) || (pair.key == 5 && pair.value == 6)
}

fn at_or_same(map: &mut Handle, index: usize) -> bool
    ghost pairs: { List (ℕ × ℕ) }
    requires open { map.old.held ≡ Some pairs }
    ensures { result ≡ true }
{
    let mut pair = Pair { key: 5, value: 6 };
    bptree_at(map, index, &mut pair) || (pair.key == 5 && pair.value == 6)
}

// A removal that finds no pair, or fails, writes nothing.
fn removed_or_same(map: &mut Handle, index: usize) -> bool
    ghost pairs: { List (ℕ × ℕ) }
    requires open { map.old.held ≡ Some pairs }
    ensures { result ≡ true }
{
    let mut pair = Pair { key: 5, value: 6 };
    bptree_del_at(map, index, &mut pair) == 1 || (pair.key == 5 && pair.value == 6)
}

fn popped_first_or_same(map: &mut Handle) -> bool
    ghost pairs: { List (ℕ × ℕ) }
    requires open { map.old.held ≡ Some pairs }
    ensures { result ≡ true }
{
    let mut pair = Pair { key: 5, value: 6 };
    bptree_pop_first(map, &mut pair) == 1 || (pair.key == 5 && pair.value == 6)
}

fn popped_last_or_same(map: &mut Handle) -> bool
    ghost pairs: { List (ℕ × ℕ) }
    requires open { map.old.held ≡ Some pairs }
    ensures { result ≡ true }
{
    let mut pair = Pair { key: 5, value: 6 };
    bptree_pop_last(map, &mut pair) == 1 || (pair.key == 5 && pair.value == 6)
}

// A call writes nothing for a key that had no value, and nothing if it fails.
fn replaced_or_same(map: &mut Handle, key: u64, new: u64) -> bool
    ghost pairs: { List (ℕ × ℕ) }
    requires open { map.old.held ≡ Some pairs }
    ensures { result ≡ true }
{
    let mut old = 5;
    bptree_put(map, key, new, &mut old) == 4 || old == 5
}

fn deleted_or_same(map: &mut Handle, key: u64) -> bool
    ghost pairs: { List (ℕ × ℕ) }
    requires open { map.old.held ≡ Some pairs }
    ensures { result ≡ true }
{
    let mut old = 5;
    bptree_del(map, key, &mut old) == 1 || old == 5
}

// An array of one key is read as the key alone: a value at an absent key is unchanged.
fn value_of_many_or(map: &mut Handle, key: u64, other: u64) -> u64
    ghost pairs: { List (ℕ × ℕ) }
    requires open { map.old.held ≡ Some pairs }
    ensures { result ≡ unwrap_or (value nat_cmp pairs key) other }
{
    let mut values = [other];
    let mut found = [5];
    bptree_get_many(map, &[key], &mut values, &mut found);
    values[0]
}

// An array is unchanged behind the pairs that are copied, here no pairs.
fn copies_none(map: &mut Handle) -> bool
    requires open { map.old.held ≡ Some [] }
    ensures { result ≡ true }
{
    let mut out = [Pair { key: 5, value: 6 }];
    bptree_range(map, 0, &mut out) == 0 && out[0].key == 5 && out[0].value == 6
}
