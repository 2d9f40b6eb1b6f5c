#![tactic(auto)]

ghost use Rattle.std.specs.Prelude.{◌≡◌, if◌then◌else◌, Some, None, nat_eq};
ghost use Rattle.rounding.specs.Nearest.{nearest as nearest_of, NearestLaw};

use std::cmp::Ordering;

// The quotient to the nearest whole number, a half to the even one. There is none by 0.
#[tactic(auto, using(crate::proofs::Halves::nearest_law))]
pub fn nearest(sum: u64, parts: u64) -> Option<u64>
    ensures value { result ≡ (if nat_eq parts 0 then None else Some (nearest_of sum parts)) }
    ensures law { NearestLaw }
{
    let whole = sum.checked_div(parts)?;
    let rest = sum % parts;
    Some(match rest.cmp(&(parts - rest)) {
        Ordering::Less => whole,
        Ordering::Equal => whole + whole % 2,
        Ordering::Greater => whole + 1,
    })
}
