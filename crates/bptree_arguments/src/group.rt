//! Groups of keys, and the number of keys in each.
ghost use Rattle.std.specs.Prelude.{◌≡◌, ◌≢◌, ℕ, ◌+◌, ◌-◌, ◌<◌, ◌^◌, min, [], map, IfOk, true, false};
ghost use Rattle.std.specs.Ordering.{is_gt};
ghost use Rattle.bptree_arguments.specs.GroupSums.{greatest_of, has_no_group, number_of_groups, shared, summary_of, summary_of_group, summary_of_ends, AreCombined, summary_of_all};
ghost use Rattle.bptree_arguments.specs.Groups.{IsGroupSummary, AreAlike, different, group, AlikeSumUpSame, EndsOfBoth, GroupOfBoth, SizeCountsKeys, SumsUpEnds, SumsUpGroups, TakesNext, ReportsDifferent, ReportsEnds, ReportsGreatest, ReportsIfNone};
ghost use Rattle.std.specs.Option.{option_map};
ghost use Rattle.bptree_arguments.specs.declared.group.GroupCount.TheVariants.{Zero};
ghost use Rattle.bptree_arguments.specs.Sums.{SumsUpKeys, SumsUpPieces};

mod rank;
mod search;

use crate::argument::{Argument, CloneArgument};
use bptree_keys::key::Key;
pub use bptree_keys::key::Tuple2;
use std::alloc::AllocError;
use std::cmp::Ordering;

/// A group that is made from a key.
pub trait FromRef<T: Ord>: Ord {
    /// The group of a key, up to equality.
    ghost group_of: { T → Self };

    /// Returns the group of a key.
    ///
    /// O(1) and one clone, for `Tuple2`. It fails only if an allocation fails.
    fn from_ref(input: &T) -> Result<Self, AllocError>
        ensures { IfOk result (λ group. Self.cmp group (group_of input.now) ≡ Ordering.Equal) };

    /// A key that is not above another has a group that is not above the other's.
    ghost keeps_order: { (x y : T) → is_gt (T.cmp x y) ≡ false → is_gt (Self.cmp (group_of x) (group_of y)) ≡ false };
}

impl<T1: Key, T2: Key> FromRef<(T1, T2)> for Tuple2<T1> {
    ghost group_of = { λ pair. record { 0 = pair.0 } };

    fn from_ref(input: &(T1, T2)) -> Result<Self, AllocError> {
        Ok(Tuple2(input.0.clone()?))
    }

    ghost use Rattle.bptree_arguments.specs.Groups.{first_not_above};

    ghost keeps_order = { λ x y h. first_not_above (T1.cmp x.0 y.0) (T2.cmp x.1 y.1) h };
}

/// States laws of groups in its contract; the body does nothing. The size of a group is the number
/// of its keys. The keys of a group in two lists, one after the other, are those of the first list,
/// followed by those of the second. A clone of a summary is a summary of the same groups.
pub fn laws_of_groups<K: Key, G: FromRef<K> + Key>()
    ensures size { SizeCountsKeys G.cmp G.group_of }
    ensures append { GroupOfBoth G.cmp G.group_of }
    ensures clones { AlikeSumUpSame G.cmp }
{}

/// The groups of a list of keys: no group, one group with its size, or the least and the greatest
/// group with their sizes and the number of groups. The default has no group.
#[derive(Debug, Drop)]
pub enum GroupCount<G> {
    Zero,
    One(G, usize),
    Multiple {
        min_group: (G, usize),
        max_group: (G, usize),
        group_count: usize,
    },
}

impl<G: Key> Default for GroupCount<G> {
    ghost use Rattle.bptree_arguments.specs.declared.group.GroupCount.TheVariants.{Zero};

    ghost is_default = { λ x. x ≡ Zero };

    fn default() -> Self {
        GroupCount::Zero
    }
}

impl<G: Key> Clone for GroupCount<G> {
    ghost is_clone = { AreAlike G.cmp };

    fn clone(&self) -> Result<Self, AllocError> {
        match self {
            GroupCount::Zero => Ok(GroupCount::Zero),
            GroupCount::One(group, size) => Ok(GroupCount::One(group.clone()?, *size)),
            GroupCount::Multiple {
                min_group,
                max_group,
                group_count,
            } => {
                let least = min_group.0.clone()?;
                let greatest = max_group.0.clone()?;
                Ok(GroupCount::Multiple {
                    min_group: (least, min_group.1),
                    max_group: (greatest, max_group.1),
                    group_count: *group_count,
                })
            }
        }
    }
}

impl<G: Key> GroupCount<G> {
    /// Returns the greatest group with its size, or `None` if there is no group.
    ///
    /// O(1). It allocates nothing and cannot fail.
    pub fn max_group(&self) -> Option<(&G, usize)>
        ensures greatest { ReportsGreatest G.cmp self.now (option_map (λ r. (r.0.now, r.1)) result) }
        ensures exact { option_map (λ r. (r.0.now, r.1)) result ≡ greatest_of self.now }
    {
        match self {
            GroupCount::Zero => None,
            GroupCount::One(group, size) => Some((group, *size)),
            GroupCount::Multiple { max_group, .. } => Some((&max_group.0, max_group.1)),
        }
    }

    /// Returns `true` if there is no group.
    ///
    /// O(1). It allocates nothing and cannot fail.
    pub fn is_zero(&self) -> bool
        ensures none { ReportsIfNone G.cmp self.now result }
        ensures exact { result ≡ has_no_group self.now }
    {
        match self {
            GroupCount::Zero => true,
            _ => false,
        }
    }

    /// Returns the number of different groups.
    ///
    /// O(1). It allocates nothing and cannot fail.
    pub fn group_count(&self) -> usize
        ensures different { ReportsDifferent G.cmp self.now result }
        ensures exact { result ≡ number_of_groups self.now }
    {
        match self {
            GroupCount::Zero => 0,
            GroupCount::One(..) => 1,
            GroupCount::Multiple { group_count, .. } => *group_count,
        }
    }

    /// Returns the summary after one more group, which is not below the others.
    fn with_next(self, next: G) -> GroupCount<G>
        ensures { TakesNext G.cmp self next result }
    {
        match self {
            GroupCount::Zero => GroupCount::One(next, 1),
            GroupCount::One(group, size) => match group.cmp(&next) {
                Ordering::Equal => GroupCount::One(group, size.saturating_add(1)),
                _ => GroupCount::Multiple {
                    min_group: (group, size),
                    max_group: (next, 1),
                    group_count: 2,
                },
            },
            GroupCount::Multiple {
                min_group,
                max_group,
                group_count,
            } => {
                let (greatest, size) = max_group;
                match greatest.cmp(&next) {
                    Ordering::Equal => GroupCount::Multiple {
                        min_group,
                        max_group: (greatest, size.saturating_add(1)),
                        group_count,
                    },
                    _ => GroupCount::Multiple {
                        min_group,
                        max_group: (next, 1),
                        group_count: group_count.saturating_add(1),
                    },
                }
            }
        }
    }

    /// Returns the least and the greatest group, or `None` if there is no group.
    pub(crate) fn ends(&self) -> Option<Ends<'_, G>>
        ensures ends { ReportsEnds G.cmp self.now result }
        ensures reported { option_map (λ ends. summary_of_ends ends) result ≡ summary_of_group self.now }
    {
        match self {
            GroupCount::Zero => None,
            GroupCount::One(group, size) => Some(Ends {
                least: group,
                least_size: *size,
                greatest: group,
                greatest_size: *size,
                group_count: 1,
            }),
            GroupCount::Multiple {
                min_group,
                max_group,
                group_count,
            } => Some(Ends {
                least: &min_group.0,
                least_size: min_group.1,
                greatest: &max_group.0,
                greatest_size: max_group.1,
                group_count: *group_count,
            }),
        }
    }
}

/// The least and the greatest group of a list, each with its size, and the number of groups.
#[derive(Drop)]
pub(crate) struct Ends<'a, G> {
    pub(crate) least: &'a G,
    pub(crate) least_size: usize,
    pub(crate) greatest: &'a G,
    pub(crate) greatest_size: usize,
    pub(crate) group_count: usize,
}

// Returns the size of a group at an end of a list. If it is the only group, the share that the
// neighbouring list has of it is added.
fn with_share(size: usize, group_count: usize, share: usize) -> usize
    ensures only { group_count ≡ 1 → result ≡ min (size + share) (2 ^ 64 - 1) }
    ensures of_several { group_count ≢ 1 → result ≡ size }
    ensures exact { result ≡ shared size group_count share }
{
    if group_count == 1 {
        size.saturating_add(share)
    } else {
        size
    }
}

impl<'a, G: Key> Ends<'a, G> {
    /// Returns the ends of two lists, one after the other.
    fn followed_by(self, next: Ends<'a, G>) -> Ends<'a, G>
        ensures ends { EndsOfBoth G.cmp self.entry next.entry result }
        ensures reported { AreCombined G.cmp self.entry next.entry result }
    {
        let total = self.group_count.saturating_add(next.group_count);
        match self.greatest.cmp(next.least) {
            Ordering::Equal => Ends {
                least: self.least,
                least_size: with_share(self.least_size, self.group_count, next.least_size),
                greatest: next.greatest,
                greatest_size: with_share(next.greatest_size, next.group_count, self.greatest_size),
                group_count: total.saturating_sub(1),
            },
            _ => Ends {
                least: self.least,
                least_size: self.least_size,
                greatest: next.greatest,
                greatest_size: next.greatest_size,
                group_count: total,
            },
        }
    }

    /// Returns an owned summary, with clones of the groups.
    fn to_summary(self) -> Result<GroupCount<G>, AllocError>
        ensures summary { IfOk result (SumsUpEnds G.cmp self.entry) }
        ensures reported { IfOk result (AreAlike G.cmp (summary_of (Some (summary_of_ends self.entry)))) }
    {
        let least = self.least.clone()?;
        if self.group_count == 1 {
            Ok(GroupCount::One(least, self.least_size))
        } else {
            let greatest = self.greatest.clone()?;
            Ok(GroupCount::Multiple {
                min_group: (least, self.least_size),
                max_group: (greatest, self.greatest_size),
                group_count: self.group_count,
            })
        }
    }
}

impl<K: Key, G: FromRef<K> + Key> Argument<K> for GroupCount<G> {
    ghost is_summary = { λ a keys. IsGroupSummary G.cmp a (map G.group_of keys) };

    /// If the first and the last key have equal groups, only these two groups are made. Otherwise
    /// one group is made from each key, and no group is cloned.
    fn from_leaf(keys: &[K]) -> Result<Self, AllocError>
        ensures summary { IfOk result (SumsUpKeys (SumsUpGroups G.cmp G.group_of) K.cmp keys.now) }
        ensures empty { keys.now ≡ [] → result ≡ Ok Zero }
    {
        if keys.is_empty() {
            return Ok(GroupCount::Zero);
        }
        let first = G::from_ref(&keys[0])?;
        let last = G::from_ref(&keys[keys.len() - 1])?;
        if let Ordering::Equal = first.cmp(&last) {
            return Ok(GroupCount::One(first, keys.len()));
        }
        let mut summary = GroupCount::One(first, 1);
        for i in 1..keys.len() - 1 {
            summary = summary.with_next(G::from_ref(&keys[i])?);
        }
        Ok(summary.with_next(last))
    }

    /// Makes one comparison per child, and at most two clones of groups. Each sum of sizes and of
    /// groups stops at the greatest `usize`, and no list of keys is longer than that.
    fn from_inner(_keys: &[K], arguments: &[Self]) -> Result<Self, AllocError>
        ensures summary { IfOk result (SumsUpPieces (SumsUpGroups G.cmp G.group_of) K.cmp arguments.now) }
        ensures empty { arguments.now ≡ [] → result ≡ Ok Zero }
        ensures reported { IfOk result (AreAlike G.cmp (summary_of_all G.cmp arguments.now)) }
    {
        let mut whole: Option<Ends<'_, G>> = None;
        for argument in arguments {
            match argument.ends() {
                None => {}
                Some(next) => {
                    whole = Some(match whole {
                        None => next,
                        Some(ends) => ends.followed_by(next),
                    });
                }
            }
        }
        match whole {
            None => Ok(GroupCount::Zero),
            Some(ends) => ends.to_summary(),
        }
    }

    /// Returns the size of the only group, or 0 if there is no group, in constant time. If there
    /// are several groups, it returns `None`: the sizes of those between the least and the greatest
    /// are not stored.
    fn key_count(&self) -> Option<usize> {
        match self {
            GroupCount::Zero => Some(0),
            GroupCount::One(_, size) => Some(*size),
            GroupCount::Multiple { .. } => None,
        }
    }

    ghost use Rattle.std.proofs.Common.{rules};

    ghost default_is_summary = { λ a h. Prim.search rules };
}

impl<K: Key, G: FromRef<K> + Key> CloneArgument<K> for GroupCount<G> {
    ghost use Rattle.bptree_arguments.specs.GroupClones.{clone_summarizes};

    ghost clone_is_summary = { clone_summarizes K.total G.total G.group_of G.keeps_order };
}
