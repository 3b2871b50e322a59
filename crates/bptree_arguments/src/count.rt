//! Counts of keys: a tree with these summaries finds a key by its index, and ranks a key among all.
ghost use Rattle.std.specs.Prelude.{◌≡◌, ◌<◌, ◌≤◌, ◌+◌, ◌-◌, ◌^◌, length, min, is_ok, Some, IfOk, IfErr, IfSome, IsOk, ⊤};
ghost use Rattle.std.specs.List.{sum_by};
ghost use Rattle.std.proofs.Common.{rules};
ghost use Rattle.bptree_arguments.specs.CountLaws.{SelectsIndex, count_below, CountsAtSlot, CountsKeys, Counted, sum_counts};
ghost use Rattle.bptree_arguments.specs.Ranks.{IsSlotIn, Carries};
ghost use Rattle.bptree_arguments.specs.Replaced.{SumsUpReplaced};
ghost use Rattle.bptree_arguments.specs.Selection.{IsIndexBelow};
ghost use Rattle.bptree_arguments.specs.Sums.{SumsUpKeys, SumsUpPieces, ReportsLength};
ghost use Rattle.bptree_keys.specs.Pieces.{ArePieces};
ghost use Rattle.bptree_arguments.specs.GroupSums.{capped_sum};

use crate::argument::{Argument, CloneArgument, RankArgument, SearchArgument};
use bptree_keys::key::Key;
use std::alloc::AllocError;

/// The number of keys below a child. The default counts no key.
#[derive(Clone, Copy, Default, Debug)]
pub struct Count(usize);

impl Count {
    /// Returns the number of keys.
    ///
    /// O(1). It allocates nothing and cannot fail.
    pub fn count(&self) -> usize
        ensures { result ≡ self.now.0 }
    {
        self.0
    }
}

// `FEW` numbers, each below `SMALL`, have a sum below two to the power of 64: a start, and fewer
// than `FEW` counts.
const FEW: usize = 128;

// The least number that is not small.
const SMALL: usize = 1 << 57;

// Up to this many counts are added one at a time: a load of several counts at once may have to wait
// for the store of the one that was written last.
const ALONE: usize = 16;

/// Returns the sum of a number and the counts, or the greatest `usize` if the sum is greater. If
/// there are more than `ALONE` counts but fewer than `FEW`, and their bits show that all are small,
/// no addition is checked for overflow, so that several can be added at a time. Otherwise the
/// counts are added one after another.
///
/// O(c) for c counts. It allocates nothing and cannot fail.
pub fn total_of(start: usize, arguments: &[Count]) -> usize
    ensures { result ≡ min (start + sum_by (λ b. b.0) arguments.now) (2 ^ 64 - 1) }
{
    if arguments.len() > ALONE && arguments.len() < FEW {
        let mut total = start;
        let mut bits = start;
        for argument in arguments {
            total = total.wrapping_add(argument.0);
            bits |= argument.0;
        }
        if bits < SMALL {
            return total;
        }
    }
    capped_total_of(start, arguments)
}

// Returns the same sum for counts of any size. Each step is one addition, and the loop ends at the
// first sum that does not fit.
fn capped_total_of(start: usize, arguments: &[Count]) -> usize
    ensures { result ≡ min (start + sum_by (λ b. b.0) arguments.now) (2 ^ 64 - 1) }
{
    let mut total = start;
    for argument in arguments {
        match total.checked_add(argument.0) {
            Some(sum) => total = sum,
            None => return usize::MAX,
        }
    }
    total
}

/// The summary is the exact number of keys. No call allocates, so no call fails.
impl<K: Key> Argument<K> for Count {
    ghost is_summary = { λ a keys. a.0 ≡ length keys };

    ghost needs_no_memory = { ⊤ };

    fn never_fails() -> bool {
        true
    }

    fn from_leaf(keys: &[K]) -> Result<Count, AllocError>
        ensures summary { IfOk result (SumsUpKeys CountsKeys K.cmp keys.now) }
        ensures exact { IfOk result (λ a. a.0 ≡ length keys.now) }
        ensures infallible { IsOk result }
    {
        Ok(Count(keys.len()))
    }

    /// Returns the sum of the counts, in one step per child. The sum stops at the greatest `usize`,
    /// and no list of keys is longer than that. The separators are not counted.
    fn from_inner(_keys: &[K], arguments: &[Count]) -> Result<Count, AllocError>
        ensures summary { IfOk result (SumsUpPieces CountsKeys K.cmp arguments.now) }
        ensures capped { IfOk result (λ a. a.0 ≡ min (sum_counts arguments.now) (2 ^ 64 - 1)) }
        ensures infallible { IsOk result }
    {
        Ok(Count(total_of(0, arguments)))
    }

    /// Returns the node's count minus the child's old one plus its new one, in constant time, or
    /// `None` if that is no count.
    fn from_replaced(node: &Count, old: &Count, new: &Count) -> Option<Count>
        ensures replaced { IfSome result (SumsUpReplaced CountsKeys K.cmp node.now old.now new.now) }
        ensures exact { IfSome result (λ a. a.0 + old.now.0 ≡ node.now.0 + new.now.0) }
    {
        match node.0.checked_sub(old.0)?.checked_add(new.0) {
            Some(sum) => Some(Count(sum)),
            None => None,
        }
    }

    /// Returns the count, in constant time.
    fn key_count(&self) -> Option<usize>
        ensures reported { ReportsLength {K = K} (CountsKeys self.now) result }
        ensures all { result ≡ Some self.now.0 }
    {
        Some(self.0)
    }

    ghost default_is_summary = { λ _ h. Prim.search rules };
}

impl<K: Key> CloneArgument<K> for Count {
    ghost use Rattle.std.proofs.lemmas.List.Elements.{length_all_zip};
    ghost use Rattle.std.proofs.Common.{◌∙◌, ap};

    ghost clone_is_summary = { λ a b keys copies same equal counted. ap (λ c. c.0) same ∙ (counted ∙ length_all_zip _ keys copies equal) };
}

/// A query is an index: it selects the key at that index, or `None` past the end.
impl<K: Key> SearchArgument<K> for Count {
    type Query = usize;

    ghost selects = { SelectsIndex };

    /// Returns the query itself if there is a key at that index, and otherwise `None`, in constant
    /// time.
    fn locate_in_leaf(query: usize, keys: &[K]) -> Result<Option<usize>, AllocError>
        requires { length keys.now ≤ 64 }
        ensures in_range { IfOk result (IsIndexBelow keys.now) }
        ensures selected { IfOk result (SelectsIndex query keys.now) }
        ensures infallible { IsOk result }
    {
        if query < keys.len() {
            Ok(Some(query))
        } else {
            Ok(None)
        }
    }

    /// Returns the child in which the index lies, and the index within that child, in at most one
    /// step per child.
    fn locate_in_inner(
        query: usize,
        _keys: &[K],
        arguments: &[Count],
    ) -> Result<Option<(usize, usize)>, AllocError> {
        let mut rest = query;
        for (i, argument) in arguments.iter().enumerate() {
            if rest < argument.0 {
                return Ok(Some((i, rest)));
            }
            rest -= argument.0;
        }
        Ok(None)
    }
}

/// The rank of a key is the number of keys that are smaller.
impl<K: Key> RankArgument<K> for Count {
    type Rank = usize;

    ghost represents = { λ rank _ before. rank ≡ length before };

    ghost ranks = { λ k keys rank. rank ≡ count_below K.cmp k keys };

    fn initial_value() -> usize {
        0
    }

    /// Adds the counts to the rank, in one step per child.
    fn fold_inner(_k: &K, rank: usize, arguments: &[Count]) -> Result<usize, AllocError>
        ensures carries { IfOk result (Carries CountsKeys K.cmp arguments.now Counted rank _k.now) }
        ensures capped { IfOk result (λ next. next ≡ capped_sum rank (sum_counts arguments.now)) }
        ensures infallible { IsOk result }
    {
        Ok(total_of(rank, arguments))
    }

    fn fold_leaf(
        _k: &K,
        rank: usize,
        slot: Result<usize, usize>,
        _keys: &[K],
    ) -> Result<Result<usize, usize>, AllocError>
        requires few { length _keys.now ≤ 64 }
        requires slot { IsSlotIn _keys.now slot }
        ensures variant { IfOk result (λ outcome. is_ok outcome ≡ is_ok slot) }
        ensures ranked { IfOk result (CountsAtSlot K.cmp _k.now rank _keys.now slot) }
        ensures infallible { IsOk result }

        // The exact result for a key that is present, and for one that is absent.
        ensures present { IfOk slot (λ i. IfOk result (λ a. a ≡ Ok (capped_sum rank i))) }
        ensures absent { IfErr slot (λ i. IfOk result (λ a. a ≡ Err (capped_sum rank i))) }
    {
        Ok(match slot {
            Ok(i) => Ok(rank.saturating_add(i)),
            Err(i) => Err(rank.saturating_add(i)),
        })
    }
}
