//! Callers of the order of pairs, of the last of each run, and of the cuts of a layer.
ghost use Rattle.std.specs.Prelude.{◌≡◌, ◌≢◌, ◌≤◌, ◌+◌, ◌⊎◌, ◌∷◌, ◌↔◌, [], Some, List, IsTrue, false};
ghost use Rattle.std.specs.declared.cmp.Ordering.TheVariants.{Equal, Greater};
ghost use Rattle.bptree_keys.specs.Contents.{IsAscending, load, gather, value};
ghost use Rattle.bptree_load_plan.specs.Loading.{IsInLoadOrder, last_value};

use bptree_keys::key::Key;
use bptree_load_plan::cuts::first_of_layer;
use bptree_load_plan::loading::{
    in_load_order, keep_last_of_each_run, laws_of_load, sort_for_load,
};

// No pairs are in order, and so is one pair. Two pairs are in order if the first key is not above
// the second.
fn reports_the_order_of_few<K: Key, V>(pairs: &[(K, V)]) -> bool
    ensures none { pairs.now ≡ [] → IsTrue result }
    ensures one { (a : K × V) → pairs.now ≡ a ∷ [] → IsTrue result }
    ensures two { (a b : K × V) → pairs.now ≡ a ∷ b ∷ [] → IsTrue result ↔ (K.cmp a.0 b.0 ≢ Greater) }
{
    in_load_order(pairs)
}

// Ascending pairs are in order, and all of them stay.
fn keeps_ascending_pairs<K: Key, V: Drop>(pairs: &mut Vec<(K, V)>) -> bool
    requires { IsAscending K.cmp pairs.old.items }
    ensures ordered { IsTrue result }
    ensures pairs { pairs.new.items ≡ pairs.old.items }
{
    laws_of_load::<K, V>();
    let ordered = in_load_order(pairs);
    keep_last_of_each_run(pairs);
    ordered
}

// Of two pairs with equal keys the second stays, and a look-up of the key returns its value.
fn keeps_the_second_of_two<K: Key, V: Drop>(pairs: &mut Vec<(K, V)>)
    requires { IsInLoadOrder K.cmp pairs.old.items }
    ensures pair { (a b : K × V) → pairs.old.items ≡ a ∷ b ∷ [] → K.cmp b.0 a.0 ≡ Equal → pairs.new.items ≡ b ∷ [] }
    ensures value { (k : K) → value K.cmp pairs.new.items k ≡ last_value K.cmp pairs.old.items k }
    ensures gather { pairs.new.items ≡ gather K.cmp pairs.old.items }
{
    laws_of_load::<K, V>();
    keep_last_of_each_run(pairs);
}

// A second pass changes nothing.
fn keeps_all_of_what_was_kept<K: Key, V: Drop>(pairs: &mut Vec<(K, V)>)
    requires { IsInLoadOrder K.cmp pairs.old.items }
    ensures { pairs.new.items ≡ load K.cmp pairs.old.items }
{
    laws_of_load::<K, V>();
    keep_last_of_each_run(pairs);
    keep_last_of_each_run(pairs);
}

// Sorting pairs and keeping the last of each run gives what gathering the pairs in their given
// order gives.
fn gathers_by_sorting<K: Key, V: Drop>(pairs: &mut Vec<(K, V)>) -> bool
    ensures gathered { IsTrue result → pairs.new.items ≡ gather K.cmp pairs.old.items }
    ensures unchanged { result ≡ false → pairs.new.items ≡ pairs.old.items }
{
    if sort_for_load(pairs).is_err() {
        return false;
    }
    keep_last_of_each_run(pairs);
    true
}

// Each node of a layer in turn takes what it has room for. The rest is empty, or enough for one
// more node.
fn leaves_enough_for_another(left: usize, capacity: usize, least: usize) -> usize
    requires { least + least ≤ capacity }
    ensures taken { left ≤ result + capacity }
    ensures enough { (result ≡ 0) ⊎ (least ≤ result) }
{
    left - first_of_layer(left, capacity, least)
}

// Two nodes share one pair more than a node has room for, and each takes half of the pairs.
fn shares_one_too_many() -> (usize, usize)
    ensures { result ≡ (33, 32) }
{
    let first = first_of_layer(65, 64, 16);
    (first, first_of_layer(65 - first, 64, 16))
}
