//! The keys of a set that another set holds too.
ghost use Rattle.std.specs.Prelude.{◌≡◌, min, Some};

use crate::set::sifted::SetOp;

/// The keys that the other set holds too.
pub struct IntersectionOp;

impl SetOp for IntersectionOp {
    ghost keeps = { λ held. held };

    ghost reports = { λ first second hint. hint ≡ (0, Some (min first second)) };

    fn is_kept(held: bool) -> bool {
        held
    }

    fn hint(lens: (usize, usize)) -> (usize, Option<usize>) {
        let (first, second) = lens;
        (0, Some(first.min(second)))
    }
}
