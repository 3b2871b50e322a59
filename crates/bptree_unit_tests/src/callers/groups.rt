//! Callers of groups and of the visitor that counts the keys of one group.
ghost use Rattle.std.specs.Prelude.{◌≡◌, ◌<◌, ◌≤◌, ◌+◌, ◌-◌, ◌^◌, ℕ, min, ◌∷◌, ◌++◌, [], List, Some, length, map, true, false, IfOk, MatchResult};
ghost use Rattle.std.specs.declared.cmp.Ordering.TheVariants.{Equal};
ghost use Rattle.std.specs.List.{AllByRecursion, AllZip};
ghost use Rattle.std.specs.List.Sorted.{IsStrictlySortedBy};
ghost use Rattle.std.specs.Map.{keys_of};
ghost use Rattle.std.specs.Ordering.{is_gt};
ghost use Rattle.bptree_arguments.specs.Groups.{IsGroupSummary, different, group_size};
ghost use Rattle.bptree_keys.specs.Pieces.{ArePieces};

use bptree_arguments::argument::Argument;
use bptree_arguments::group::{FromRef, GroupCount, Tuple2, laws_of_groups};
use bptree_arguments::group_size::ExtractGroupSize;
use bptree_arguments::visit::{DescendVisit, DescendVisitResult};
use bptree_keys::key::Key;
use std::alloc::AllocError;

// The group of a pair is equal to its first part.
fn first_of_a_pair<A: Key, B: Key>(pair: &(A, B)) -> Result<A, AllocError>
    ensures { IfOk result (λ first. A.cmp first pair.now.0 ≡ Equal) }
{
    let group = Tuple2::<A>::from_ref(pair)?;
    Ok(group.0)
}

// The summary of a leaf has as many groups as the leaf's keys have: at least one if there are keys,
// and 0 if there is no key.
fn counts_the_groups_of_a_leaf<K: Key, G: FromRef<K> + Key>(
    keys: &[K],
) -> Result<(bool, usize), AllocError>
    requires ascending { IsStrictlySortedBy K.cmp keys.now }
    ensures some { 0 < length keys.now → IfOk result (λ reported. reported.0 ≡ false) }
    ensures groups { 0 < length keys.now → IfOk result (λ reported. reported.1 ≡ different G.cmp (map G.group_of keys.now)) }
    ensures none { keys.now ≡ [] → IfOk result (λ reported. reported ≡ (true, 0)) }
{
    let summary = <GroupCount<G> as Argument<K>>::from_leaf(keys)?;
    Ok((summary.is_zero(), summary.group_count()))
}

// The summary of no children has no group, nor has the default.
fn has_no_group<K: Key, G: FromRef<K> + Key>(keys: &[K], arguments: &[GroupCount<G>]) -> bool
    requires { arguments.now ≡ [] }
    ensures { result ≡ true }
{
    match <GroupCount<G> as Argument<K>>::from_inner(keys, arguments) {
        Ok(below_none) => below_none.is_zero(),
        Err(_) => GroupCount::<G>::default().is_zero(),
    }
}

// The summary over two leaves counts the groups of all keys, whatever the separators are.
fn counts_the_groups_of_two_leaves<K: Key, G: FromRef<K> + Key>(
    left: &[K],
    separators: &[K],
    right: &[K],
    arguments: &[GroupCount<G>],
) -> Result<usize, AllocError>
    requires pieces { ArePieces K.cmp (left.now ∷ right.now ∷ []) }
    requires summaries { AllZip (λ a keys. IsGroupSummary G.cmp a (map G.group_of keys)) arguments.now (left.now ∷ right.now ∷ []) }
    ensures { IfOk result (λ n. n ≡ different G.cmp (map G.group_of (left.now ++ right.now))) }
{
    let both = <GroupCount<G> as Argument<K>>::from_inner(separators, arguments)?;
    Ok(both.group_count())
}

// The size of the greatest group, also if it is the only one, and 0 if there is no group.
fn size_of_the_greatest_group<G: Key>(summary: &GroupCount<G>) -> usize
    ensures none { IsGroupSummary G.cmp summary.now [] → result ≡ 0 }
    ensures size { (groups : List G) (g : G) → IsGroupSummary G.cmp summary.now groups → AllByRecursion (λ x. is_gt (G.cmp x g) ≡ false) groups → 0 < group_size G.cmp g groups → result ≡ group_size G.cmp g groups }
    ensures only { (g : G) (size : ℕ) → summary.now ≡ GroupCount.One g size → result ≡ size }
{
    match summary.max_group() {
        None => 0,
        Some((_, size)) => size,
    }
}

// The greatest group of a leaf is returned with its number of keys, whatever groups come before it.
fn sizes_the_greatest_group_of_a_leaf<K: Key, G: FromRef<K> + Key>(
    keys: &[K],
) -> Result<usize, AllocError>
    requires some { 0 < length keys.now }
    requires ascending { IsStrictlySortedBy K.cmp keys.now }
    ensures { (g : G) → AllByRecursion (λ x. is_gt (G.cmp x g) ≡ false) (map G.group_of keys.now) → 0 < group_size G.cmp g (map G.group_of keys.now) → IfOk result (λ n. n ≡ group_size G.cmp g (map G.group_of keys.now)) }
{
    let summary = <GroupCount<G> as Argument<K>>::from_leaf(keys)?;
    Ok(size_of_the_greatest_group(&summary))
}

// Each kind of summary reports what it has, whatever its groups and sizes are.
fn reports_what_it_has<G: Key>(summary: &GroupCount<G>) -> (bool, usize)
    ensures none { summary.now ≡ GroupCount.Zero → result ≡ (true, 0) }
    ensures one { (g : G) (size : ℕ) → summary.now ≡ GroupCount.One g size → result ≡ (false, 1) }
    ensures several { (least greatest : G × ℕ) (count : ℕ) → summary.now ≡ GroupCount.Multiple least greatest count → result ≡ (false, count) }
{
    (summary.is_zero(), summary.group_count())
}

// The sizes of a group in two children are added, saturating at the greatest number. The separators
// are not counted.
fn adds_two_sizes<K: Key, G: FromRef<K> + Key>(
    separators: &[K],
    first: &G,
    second: &G,
    sizes: (usize, usize),
    arguments: &[GroupCount<G>],
) -> Result<usize, AllocError>
    requires same { G.cmp first.now second.now ≡ Equal }
    requires children { arguments.now ≡ GroupCount.One first.now sizes.0 ∷ GroupCount.One second.now sizes.1 ∷ [] }
    ensures { IfOk result (λ n. n ≡ min (sizes.0 + sizes.1) (2 ^ 64 - 1)) }
{
    let both = <GroupCount<G> as Argument<K>>::from_inner(separators, arguments)?;
    match both.max_group() {
        None => Ok(0),
        Some((_, size)) => Ok(size),
    }
}

// A clone is a summary of what its original is a summary of.
fn clones_a_summary<K: Key, G: FromRef<K> + Key>(
    summary: &GroupCount<G>,
) -> Result<GroupCount<G>, AllocError>
    ensures { IfOk result (λ copy. (groups : List G) → IsGroupSummary G.cmp summary.now groups → IsGroupSummary G.cmp copy groups) }
{
    laws_of_groups::<K, G>();
    let copy = summary.clone()?;
    Ok(copy)
}

// The keys of a group in a leaf are counted, and the result is 0 if the group has no key there.
fn counts_a_group_of_a_leaf<K: Key, V, G: FromRef<K> + Key>(
    group: G,
    keys: &[K],
    values: &[V],
) -> Result<Option<usize>, AllocError>
    requires few { length keys.now ≤ 64 }
    requires paired { length keys.now ≡ length values.now }
    requires ascending { IsStrictlySortedBy K.cmp keys.now }
    ensures size { IfOk result (λ size. size ≡ Some (group_size G.cmp group (map G.group_of keys.now))) }
    ensures absent { group_size G.cmp group (map G.group_of keys.now) ≡ 0 → IfOk result (λ size. size ≡ Some 0) }
{
    let mut visitor = ExtractGroupSize::<G, K>::new(group);
    <ExtractGroupSize<G, K> as DescendVisit<K, V, GroupCount<G>>>::visit_leaf(
        &mut visitor,
        keys,
        values,
    )
}

// Above two leaves the visitor completes with the size of the group in both, or names one of the
// two. It always returns one of these results.
fn counts_a_group_above_two_leaves<K: Key, V, G: FromRef<K> + Key>(
    group: G,
    separators: &[K],
    arguments: &[GroupCount<G>],
) -> Result<Result<usize, usize>, AllocError>
    requires { length separators.now ≡ 1 }
    ensures { IfOk result (λ reported. (left right : List (K × V)) → ArePieces K.cmp (keys_of left ∷ keys_of right ∷ []) → AllZip (λ a keys. IsGroupSummary G.cmp a (map G.group_of keys)) arguments.now (keys_of left ∷ keys_of right ∷ []) → MatchResult reported (λ n. n ≡ group_size G.cmp group (map G.group_of (keys_of left ++ keys_of right))) (λ child. child < 2)) }
{
    let mut visitor = ExtractGroupSize::<G, K>::new(group);
    let step = <ExtractGroupSize<G, K> as DescendVisit<K, V, GroupCount<G>>>::visit_inner(
        &mut visitor,
        separators,
        arguments,
    )?;
    match step {
        DescendVisitResult::Complete(size) => Ok(Ok(size)),
        DescendVisitResult::GoDown(child) => Ok(Err(child)),
        DescendVisitResult::Cancel => Ok(Err(2)),
    }
}
