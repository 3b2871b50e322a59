//! Calls that copy many pairs at once into a caller's array. These calls cannot fail.
ghost use Rattle.std.specs.Prelude.{◌≡◌, ℕ, List, Some, None, length};
ghost use Rattle.std.specs.Ordering.{nat_cmp};
ghost use Rattle.bptree_c_maps.specs.Ends.{pairs_back_from};
ghost use Rattle.bptree_c_maps.specs.Pairs.{IsCopied};
ghost use Rattle.bptree_keys.specs.Ranges.{between};
ghost use Rattle.bptree_tree.specs.Pages.{page};

use bptree_c_maps::handle::Handle;
use bptree_c_maps::many::{copy, page_in, pairs_from, pairs_up_to};
use bptree_c_maps::pair::Pair;
use bptree_keys::end::End;

/// Copies the pairs whose keys are at least `from`, in the order of their keys, until the array is
/// full or no pairs are left. It returns the number of pairs.
#[unsafe(no_mangle)]
pub extern "C" fn bptree_range(map: &mut Handle, from: u64, out: &mut [Pair]) -> usize
    ghost pairs: { List (ℕ × ℕ) }
    requires open { map.old.held ≡ Some pairs }
    ensures kept { map.new.held ≡ Some pairs }
    ensures copied { IsCopied (between nat_cmp pairs (Some from) None) out.old out.new result }
{
    let pairs = pairs_from(map.peek(), from, out.len());
    copy(pairs, End::Front, out)
}

/// Copies the pairs whose keys are at most `from`, from the greatest key down, until the array is
/// full or no pairs are left. It returns the number of pairs.
#[unsafe(no_mangle)]
pub extern "C" fn bptree_range_back(map: &mut Handle, from: u64, out: &mut [Pair]) -> usize
    ghost pairs: { List (ℕ × ℕ) }
    requires open { map.old.held ≡ Some pairs }
    ensures kept { map.new.held ≡ Some pairs }
    ensures copied { IsCopied (pairs_back_from pairs from) out.old out.new result }
{
    let pairs = pairs_up_to(map.peek(), from, out.len());
    copy(pairs, End::Back, out)
}

/// Copies the pairs of a page. Each page has as many pairs as the array has room for, and the first
/// page is 0. It returns the number of pairs: 0 past the last page, and 0 if the array is empty.
#[unsafe(no_mangle)]
pub extern "C" fn bptree_page(map: &mut Handle, number: usize, out: &mut [Pair]) -> usize
    ghost pairs: { List (ℕ × ℕ) }
    requires open { map.old.held ≡ Some pairs }
    ensures kept { map.new.held ≡ Some pairs }
    ensures copied { IsCopied (page pairs number (length out.old)) out.old out.new result }
{
    if out.is_empty() {
        return 0;
    }
    let pairs = page_in(map.peek(), number, out.len());
    copy(pairs, End::Front, out)
}
