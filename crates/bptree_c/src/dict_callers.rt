//! Callers of the exports of a map from byte strings, which use only the contracts of these. If
//! there is no pair, or the call fails, nothing is written: the values of before are unchanged.
ghost use Rattle.std.specs.Prelude.{◌≡◌, [], ◌∷◌, Some, None, IsTrue, true, unwrap_or};
ghost use Rattle.bptree_c_maps.specs.ByteKeys.{by_bytes};
ghost use Rattle.bptree_c_maps.specs.Dict.{Pairs};
ghost use Rattle.bptree_keys.specs.Contents.{value};

use crate::dict::{
    bptree_dict_at, bptree_dict_clone, bptree_dict_del, bptree_dict_first, bptree_dict_get,
    bptree_dict_last, bptree_dict_next, bptree_dict_prev, bptree_dict_put,
};
use crate::dict_ends::{bptree_dict_pop_first, bptree_dict_pop_last};
use crate::dict_load::bptree_dict_del_at;
use crate::dict_many::{bptree_dict_page, bptree_dict_page_back, bptree_dict_values};
use bptree_c_maps::dict_handle::DictHandle;
use bptree_c_maps::record::Record;
use std::alloc::Global;

// A caller that ignores the result has the value, or what it had before.
fn value_or(dict: &mut DictHandle, key: &[u8], other: u64) -> u64
    ghost pairs: { Pairs }
    requires open { dict.old.held ≡ Some pairs }
    ensures { result ≡ unwrap_or (value by_bytes pairs key.now) other }
{
    let mut found = other;
    bptree_dict_get(dict, key, &mut found);
    found
}

fn first_or_same(dict: &mut DictHandle) -> bool
    ghost pairs: { Pairs }
    requires open { dict.old.held ≡ Some pairs }
    ensures { result ≡ true }
{
    let mut out = [5];
    let mut len = 7;
    let mut value = 9;
    bptree_dict_first(dict, &mut out, &mut len, &mut value)
        || (out[0] == 5 && len == 7 && value == 9)
}

fn last_or_same(dict: &mut DictHandle) -> bool
    ghost pairs: { Pairs }
    requires open { dict.old.held ≡ Some pairs }
    ensures { result ≡ true }
{
    let mut out = [5];
    let mut len = 7;
    let mut value = 9;
    bptree_dict_last(dict, &mut out, &mut len, &mut value)
        || (out[0] == 5 && len == 7 && value == 9)
}

fn at_or_same(dict: &mut DictHandle, index: usize) -> bool
    ghost pairs: { Pairs }
    requires open { dict.old.held ≡ Some pairs }
    ensures { result ≡ true }
{
    let mut out = [5];
    let mut len = 7;
    let mut value = 9;
    bptree_dict_at(dict, index, &mut out, &mut len, &mut value)
        || (out[0] == 5 && len == 7 && value == 9)
}

fn next_or_same(dict: &mut DictHandle, key: &[u8]) -> bool
    ghost pairs: { Pairs }
    requires open { dict.old.held ≡ Some pairs }
    ensures { result ≡ true }
{
    let mut out = [5];
    let mut len = 7;
    let mut value = 9;
    bptree_dict_next(dict, key, &mut out, &mut len, &mut value)
        || (out[0] == 5 && len == 7 && value == 9)
}

fn prev_or_same(dict: &mut DictHandle, key: &[u8]) -> bool
    ghost pairs: { Pairs }
    requires open { dict.old.held ≡ Some pairs }
    ensures { result ≡ true }
{
    let mut out = [5];
    let mut len = 7;
    let mut value = 9;
    bptree_dict_prev(dict, key, &mut out, &mut len, &mut value)
        || (out[0] == 5 && len == 7 && value == 9)
}

fn replaced_or_same(alloc: Global, dict: &mut DictHandle, key: &[u8], new: u64) -> bool
    ghost pairs: { Pairs }
    requires open { dict.old.held ≡ Some pairs }
    ensures { result ≡ true }
{
    let mut old = 5;
    bptree_dict_put(alloc, dict, key, new, &mut old) == 4 || old == 5
}

fn deleted_or_same(alloc: Global, dict: &mut DictHandle, key: &[u8]) -> bool
    ghost pairs: { Pairs }
    requires open { dict.old.held ≡ Some pairs }
    ensures { result ≡ true }
{
    let mut old = 5;
    bptree_dict_del(alloc, dict, key, &mut old) == 1 || old == 5
}

fn removed_or_same(dict: &mut DictHandle, index: usize) -> bool
    ghost pairs: { Pairs }
    requires open { dict.old.held ≡ Some pairs }
    ensures { result ≡ true }
{
    let mut old = 5;
    bptree_dict_del_at(dict, index, &mut old) == 1 || old == 5
}

// An array is unchanged behind the values that are copied, here no values.
fn copies_no_value(dict: &mut DictHandle) -> bool
    requires open { dict.old.held ≡ Some [] }
    ensures { result ≡ true }
{
    let mut out = [5];
    bptree_dict_values(dict, 0, &mut out) == 0 && out[0] == 5
}

fn copies_no_pair(dict: &mut DictHandle) -> bool
    requires open { dict.old.held ≡ Some [] }
    ensures { result ≡ true }
{
    let mut bytes = [5];
    let mut out = [Record {
        length: 7,
        value: 9,
    }];
    bptree_dict_page(dict, 0, &mut bytes, &mut out) == 0
        && bytes[0] == 5
        && out[0].length == 7
        && out[0].value == 9
}

// `bptree_dict_pop_first` removes the lesser of two pairs, or fails.
fn pops_the_lesser(dict: &mut DictHandle) -> bool
    requires open { dict.old.held ≡ Some ((7 ∷ [], 70) ∷ (8 ∷ [], 80) ∷ []) }
    ensures { result ≡ true }
{
    let mut out = [4, 5];
    let mut len = 6;
    let mut value = 9;
    let code = bptree_dict_pop_first(dict, &mut out, &mut len, &mut value);
    code == 2 || (code == 1 && out[0] == 7 && out[1] == 5 && len == 1 && value == 70)
}

// `bptree_dict_pop_last` removes the greater of two pairs, or fails.
fn pops_the_greater(dict: &mut DictHandle) -> bool
    requires open { dict.old.held ≡ Some ((7 ∷ [], 70) ∷ (8 ∷ [], 80) ∷ []) }
    ensures { result ≡ true }
{
    let mut out = [4, 5];
    let mut len = 6;
    let mut value = 9;
    let code = bptree_dict_pop_last(dict, &mut out, &mut len, &mut value);
    code == 2 || (code == 1 && out[0] == 8 && out[1] == 5 && len == 1 && value == 80)
}

// A key that does not fit stays in the map, and its length is written, or the call fails.
fn pops_no_long_key(dict: &mut DictHandle) -> bool
    requires open { dict.old.held ≡ Some ((7 ∷ 8 ∷ [], 70) ∷ []) }
    ensures said { result ≡ true }
    ensures kept { dict.new.held ≡ dict.old.held }
{
    let mut out = [5];
    let mut len = 6;
    let mut value = 9;
    let code = bptree_dict_pop_first(dict, &mut out, &mut len, &mut value);
    out[0] == 5 && value == 9 && (code == 2 && len == 6 || code == 5 && len == 2)
}

// A copy has the pairs of the map, which keeps them.
fn copies_all(alloc: Global, dict: &mut DictHandle, to: &mut DictHandle) -> bool
    ghost pairs: { Pairs }
    requires open { dict.old.held ≡ Some pairs }
    requires closed { to.old.held ≡ None }
    ensures kept { dict.new.held ≡ dict.old.held }
    ensures made { IsTrue result → to.new.held ≡ dict.old.held }
{
    bptree_dict_clone(alloc, dict, to)
}

// Arrays are unchanged behind the pairs that are copied downward, here no pairs.
fn copies_no_pair_back(dict: &mut DictHandle) -> bool
    requires open { dict.old.held ≡ Some [] }
    ensures { result ≡ true }
{
    let mut bytes = [5];
    let mut out = [Record {
        length: 7,
        value: 9,
    }];
    bptree_dict_page_back(dict, 3, &mut bytes, &mut out) == 0
        && bytes[0] == 5
        && out[0].length == 7
        && out[0].value == 9
}
