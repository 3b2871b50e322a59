//! Callers of merges.
ghost use Rattle.std.specs.Prelude.{◌≡◌, ◌<◌, ◌+◌, ◌^◌, [], ◌∷◌, Some, None, List, IfOk, IsOk, drop, length, slice_get};
ghost use Rattle.std.specs.declared.cmp.Ordering.TheVariants.{Less, Equal, Greater};
ghost use Rattle.std.specs.Map.Iter.{TakesFirst, deref};
ghost use Rattle.std.specs.Option.{option_map};
ghost use Rattle.bptree_merge_iter.specs.Merge.{keys_given, merged, merge_step};

use bptree_keys::key::Key;
use bptree_merge_iter::merge_iter::{Listed, MergeIterInner, laws_of_merge};
use std::alloc::AllocError;
use std::cmp::Ordering;
use std::slice;

// A merge that has just begun has all items of both sides.
fn counts_both_sides<K: Key>(a: &[K], b: &[K]) -> (usize, usize)
    ensures { result ≡ (length a.now, length b.now) }
{
    MergeIterInner::new(a.iter(), b.iter()).lens()
}

// At any step a merge has what is left of both sides, including a head that waits.
fn counts_what_is_left<K: Key>(merge: &MergeIterInner<slice::Iter<'_, K>>) -> (usize, usize)
    ensures first { length merge.now.0 < 2 ^ 64 → result.0 ≡ length merge.now.0 }
    ensures second { length merge.now.1 < 2 ^ 64 → result.1 ≡ length merge.now.1 }
{
    merge.lens()
}

// One step of a merge in the order of the keys.
fn step<'a, K: Key>(
    merge: &mut MergeIterInner<slice::Iter<'a, K>>,
) -> (Option<&'a K>, Option<&'a K>)
    ensures less { (x y : K) → (xs ys : List K) → merge.old ≡ (x ∷ xs, y ∷ ys) → K.cmp x y ≡ Less → (option_map deref result.0 ≡ Some x) × (result.1 ≡ None) × (merge.new ≡ (xs, y ∷ ys)) }
    ensures equal { (x y : K) → (xs ys : List K) → merge.old ≡ (x ∷ xs, y ∷ ys) → K.cmp x y ≡ Equal → (option_map deref result.0 ≡ Some x) × (option_map deref result.1 ≡ Some y) × (merge.new ≡ (xs, ys)) }
    ensures greater { (x y : K) → (xs ys : List K) → merge.old ≡ (x ∷ xs, y ∷ ys) → K.cmp x y ≡ Greater → (result.0 ≡ None) × (option_map deref result.1 ≡ Some y) × (merge.new ≡ (x ∷ xs, ys)) }
    ensures first { (x : K) → (xs : List K) → merge.old ≡ (x ∷ xs, []) → (option_map deref result.0 ≡ Some x) × (result.1 ≡ None) × (merge.new ≡ (xs, [])) }
    ensures second { (y : K) → (ys : List K) → merge.old ≡ ([], y ∷ ys) → (result.0 ≡ None) × (option_map deref result.1 ≡ Some y) × (merge.new ≡ ([], ys)) }
    ensures end { merge.old ≡ ([], []) → (result.0 ≡ None) × (result.1 ≡ None) × (merge.new ≡ ([], [])) }
    ensures whole { (option_map deref result.0 ≡ (merge_step K.cmp merge.old.0 merge.old.1).first) × (option_map deref result.1 ≡ (merge_step K.cmp merge.old.0 merge.old.1).second) × (merge.new ≡ (merge_step K.cmp merge.old.0 merge.old.1).left) }
{
    merge.nexts(|a, b| a.cmp(b))
}

// If the first side has ended, the items of the second come alone, whatever the closure returns.
fn gives_the_others_alone<I: Listed, Cmp: Fn(&I::Item, &I::Item) -> Ordering>(
    merge: &mut MergeIterInner<I>,
    cmp: Cmp,
) -> (Option<I::Item>, Option<I::Item>)
where
    I::Item: Drop,
    requires callable { Cmp.IsAlwaysCallable cmp }
    requires ended { merge.old.0 ≡ [] }
    ensures first { option_map I.shows result.0 ≡ None }
    ensures second { option_map I.shows result.1 ≡ slice_get merge.old.1 0 }
    ensures left { merge.new ≡ ([], drop 1 merge.old.1) }
{
    merge.nexts(cmp)
}

// A step returns the first result of all steps, and leaves the others.
fn gives_the_first_of_all_steps<'a, K: Key>(
    merge: &mut MergeIterInner<slice::Iter<'a, K>>,
) -> (Option<&'a K>, Option<&'a K>)
    requires { 0 < length merge.old.0 + length merge.old.1 }
    ensures { merged K.cmp merge.old.0 merge.old.1 ≡ (option_map deref result.0, option_map deref result.1) ∷ merged K.cmp merge.new.0 merge.new.1 }
{
    laws_of_merge::<K>();
    step(merge)
}

// The one item, or the first of the two, is the next key of both lists, and the keys behind it are
// left.
fn gives_the_next_key<'a, K: Key>(merge: &mut MergeIterInner<slice::Iter<'a, K>>) -> Option<&'a K>
    ensures { TakesFirst deref (keys_given (merged K.cmp merge.old.0 merge.old.1)) result (keys_given (merged K.cmp merge.new.0 merge.new.1)) }
{
    let (first, second) = step(merge);
    first.or(second)
}

// Cloning a merge of slices is infallible, and the clone has the same items left.
fn copies<'a, K: Key>(
    merge: &MergeIterInner<slice::Iter<'a, K>>,
) -> Result<MergeIterInner<slice::Iter<'a, K>>, AllocError>
    ensures copy { IfOk result (λ copy. copy ≡ merge.now) }
    ensures done { IsOk result }
{
    merge.clone()
}
