//! The number of pairs, or of children, that each node of a layer gets.
ghost use Rattle.std.specs.Prelude.{◌≡◌, ◌+◌, ◌≤◌};
ghost use Rattle.bptree_load_plan.specs.Cuts.{IsLoadCut, first_of};

/// Returns how many of the `left` remaining pairs or children the next node of a layer gets. The
/// node gets as many as it has room for. If fewer than `least` would then remain, it gets half of
/// them, rounded up.
///
/// O(1). It allocates nothing and cannot fail.
pub fn first_of_layer(left: usize, capacity: usize, least: usize) -> usize
    requires { least + least ≤ capacity }
    ensures value { result ≡ first_of left capacity least }
    ensures cut { IsLoadCut left capacity least result }
{
    if left <= capacity {
        return left;
    }
    if left - capacity >= least {
        return capacity;
    }
    left - left / 2
}
