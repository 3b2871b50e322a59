//! The keys of a set that another set does not hold.
ghost use Rattle.std.specs.Prelude.{◌≡◌, ◌-◌, not, Some};

use crate::set::sifted::SetOp;

/// The keys that the other set does not hold.
pub struct DifferenceOp;

impl SetOp for DifferenceOp {
    ghost keeps = { not };

    ghost reports = { λ first second hint. hint ≡ (first - second, Some first) };

    fn is_kept(held: bool) -> bool {
        !held
    }

    fn hint(lens: (usize, usize)) -> (usize, Option<usize>) {
        let (first, second) = lens;
        (first.saturating_sub(second), Some(first))
    }
}
