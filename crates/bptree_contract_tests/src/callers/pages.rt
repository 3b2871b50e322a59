//! Callers of pages.
ghost use Rattle.std.specs.Prelude.{◌≡◌, ◌≤◌, ◌/◌, ◌-◌, ◌*◌, IfOk, filter, length, min, true};
ghost use Rattle.std.specs.Map.{keys_of};
ghost use Rattle.bptree_arguments.specs.CountLaws.{count_below};
ghost use Rattle.bptree_arguments.specs.Groups.{of_group};
ghost use Rattle.bptree_keys.specs.Contents.{has};
ghost use Rattle.bptree_contract_tests.specs.Groups.{is_of_group};
ghost use Rattle.bptree_propagation.specs.Failing.{OkIs};
ghost use Rattle.bptree_contract_tests.specs.Words.{BorrowsAt};

use bptree_arguments::argument::Argument;
use bptree_arguments::count::Count;
use bptree_arguments::group::FromRef;
use bptree_keys::key::Key;
use bptree_map::map::{BPlusTreeMap, laws_of_pages};
use std::alloc::AllocError;

// The page behind the last one is empty. The call never fails.
fn shows_none_behind_the_last<K: Key, V: Drop>(map: &BPlusTreeMap<K, V, Count>, s: usize) -> usize
    requires { 1 ≤ s }
    ensures { result ≡ 0 }
{
    laws_of_pages::<K, V>();
    let after = map.pages(s);
    match map.page(after, s) {
        Ok(pairs) => pairs.len(),
        Err(_) => unreachable!(),
    }
}

// The first page has as many pairs as fit, and begins with the first pair of the map.
fn begins_with_the_first<K: Key, V: Drop>(
    map: &BPlusTreeMap<K, V, Count>,
    s: usize,
) -> Result<(usize, Option<(&K, &V)>), AllocError>
    requires { 1 ≤ s }
    ensures len { IfOk result (λ outcome. outcome.0 ≡ min s (length map.now)) }
    ensures first { IfOk result (λ outcome. BorrowsAt outcome.1 map.now 0) }
{
    let mut pairs = map.page(0, s)?;
    let len = pairs.len();
    Ok((len, pairs.next()))
}

// A present key is on the page of the number of smaller keys. The call never fails.
fn finds_its_page<K: Key, V: Drop>(map: &BPlusTreeMap<K, V, Count>, k: &K, s: usize) -> usize
    requires some { 1 ≤ s }
    requires there { has K.cmp map.now k.now ≡ true }
    ensures { result ≡ count_below K.cmp k.now (keys_of map.now) / s }
{
    match map.page_of(k, s) {
        Ok(Ok(p)) => p,
        Ok(Err(_)) | Err(_) => unreachable!(),
    }
}

// A page of a group has as many pairs as fit, of those that the group has behind the pages before.
fn holds_what_is_left_of_a_group<K: Key, V: Drop, A: Argument<K>, G: FromRef<K> + Key>(
    map: &BPlusTreeMap<K, V, A>,
    group: &G,
    p: usize,
    s: usize,
) -> Result<usize, AllocError>
    requires { 1 ≤ s }
    ensures { OkIs result (min s (length (of_group G.cmp G.group_of group.now map.now) - p * s)) }
{
    Ok(map.group_page(group, p, s)?.len())
}

// The range of a group has as many pairs as the map has of the group.
fn holds_a_group<K: Key, V: Drop, A: Argument<K>, G: FromRef<K> + Key>(
    map: &BPlusTreeMap<K, V, A>,
    group: &G,
) -> Result<usize, AllocError>
    ensures { OkIs result (length (filter (is_of_group G.cmp G.group_of group.now) map.now)) }
{
    Ok(map.group_range(group)?.len())
}
