ghost use Rattle.comparison.specs.Compared.{Compares};

use crate::pair::Pair;
use crate::premises::{Comparison, Premises, Refused};
use decision::deciding::decide;
use decision::rule::Rule;

// Decides two lists of errors for one lot, and says which premises of the rule for two lists hold.
pub fn compare(
    first: &[i32],
    second: &[i32],
    mavs: &[(u64, u16)],
    division: u32,
    rule: Rule,
) -> Result<Comparison, Refused>
    ensures { Compares division mavs.now rule first.now second.now result }
{
    let one = decide(first, mavs, division, rule).map_err(Refused::First)?;
    let two = decide(second, mavs, division, rule).map_err(Refused::Second)?;
    let pair = Pair { first, second };
    let lower = pair.first_lower();
    let crossed = pair.first_crossed();
    let average = one.figures.total >= 0;
    Ok(Comparison {
        first: one,
        second: two,
        premises: Premises {
            lower,
            crossed,
            average,
        },
    })
}
