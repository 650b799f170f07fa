//! The order of names.
ghost use Rattle.std.specs.Prelude.{◌≡◌};
ghost use Rattle.std.specs.Ordering.{nat_cmp};
ghost use Rattle.std.specs.Cmp.Lexicographic.{slice_cmp};

use crate::Units;
use std::cmp::Ordering;

/// Compares two names unit by unit, as numbers. A proper prefix comes first.
pub fn compare(a: &Units, b: &Units) -> Ordering
    ensures { result ≡ slice_cmp nat_cmp a.now b.now }
{
    a.as_slice().cmp(b.as_slice())
}
