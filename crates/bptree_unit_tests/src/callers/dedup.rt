//! Callers of the iterator that keeps the last item of each run.
ghost use Rattle.std.specs.Prelude.{◌≡◌, ◌==◌, Bool, List, None, IfOk};
ghost use Rattle.std.specs.Iterator.{IsFinite};
ghost use Rattle.std.specs.Iterator.Order.{ActsAsAtTwo};
ghost use Rattle.std.specs.Ordering.{is_eq};
ghost use Rattle.bptree_load_plan.specs.Dedup.{GivesAll, last_of_each_run};

use bptree_load_plan::dedup::{DeDupKeepLast, DedupByExt};
use std::alloc::{AllocError, Global};

/// Returns the last number of each run of equal numbers.
pub fn collects_the_last_numbers(alloc: Global, numbers: Vec<u64>) -> Result<Vec<u64>, AllocError>
    ensures { IfOk result (λ v. v.items ≡ last_of_each_run (λ x y. x == y) numbers.items) }
{
    numbers
        .into_iter()
        .dedup_keep_last(|number, after| *number == *after)
        .collect(alloc)
}

// The iterator yields the last item of each run, for every iterator that ends and every test.
fn collects_the_last_items<I: Iterator, F: FnMut(&I::Item, &I::Item) -> bool>(
    alloc: Global,
    items: I,
    same: F,
) -> Result<Vec<I::Item>, AllocError>
where
    I::Item: Drop,
    requires can { I.can_next items }
    requires ends { IsFinite (I.remaining items) }
    requires callable { F.IsAlwaysCallable same }
    ensures { (test : I.Item → I.Item → Bool) (xs : List I.Item) → ActsAsAtTwo F.FnMut same test → GivesAll I.next_gives items xs → IfOk result (λ v. v.items ≡ last_of_each_run test xs) }
{
    items.dedup_keep_last(same).collect(alloc)
}

// After the iterator has returned `None` it returns `None` for good.
fn ends_for_good<I: Iterator, F: FnMut(&I::Item, &I::Item) -> bool>(
    items: &mut DeDupKeepLast<I, F>,
) -> (Option<I::Item>, Option<I::Item>)
where
    I::Item: Drop,
    requires { ⟦<DeDupKeepLast<I, F> as Iterator>⟧.can_next items.old }
    ensures { result.0 ≡ None → result.1 ≡ None }
{
    (items.next(), items.next())
}
