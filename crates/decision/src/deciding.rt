ghost use Rattle.std.specs.Prelude.{◌≡◌, nat_lt, unsigned_abs};
ghost use Rattle.std.specs.Result.{result_err};
ghost use Rattle.decision.specs.Answer.{outside, refusal, Answers};

use crate::judging::Case;
use crate::measuring::measure;
use crate::outcome::{Decision, Fault};
use crate::rule::Rule;

// Not from -8000 to 8000.
fn is_outside(error: i32) -> bool
    ensures { result ≡ nat_lt 8000 (unsigned_abs error) }
{
    !(-8_000..=8_000).contains(&error)
}

// The first error that is not from -8000 to 8000.
fn out_of_range(errors: &[i32]) -> Option<usize>
    ensures { result ≡ outside errors.now }
{
    errors.iter().position(|error| is_outside(*error))
}

// Asks the questions that a sample can fail, and says the first that it does.
fn ask(errors: &[i32], mavs: usize, rule: Rule) -> Result<(), Fault>
    ensures { result_err result ≡ refusal mavs rule errors.now }
{
    let n = errors.len();
    if !(1..=48).contains(&n) {
        return Err(Fault::Count);
    }
    if mavs != n {
        return Err(Fault::Mavs);
    }
    if let Some(place) = out_of_range(errors) {
        return Err(Fault::Range(place));
    }
    if u64::from(rule.factor) * n as u64 > 18_000 {
        return Err(Fault::Factor);
    }
    if rule.allowed as usize > n {
        return Err(Fault::Allowed);
    }
    if rule.average && n < 2 {
        return Err(Fault::Average);
    }
    Ok(())
}

// Decides a lot from the errors of its sample, in divisions, and the MAV of each package, in base units. No slice of pairs: the
// rule for two lists decides two lists of errors by one of MAVs.
pub fn decide(
    errors: &[i32],
    mavs: &[(u64, u16)],
    division: u32,
    rule: Rule,
) -> Result<Decision, Fault>
    ensures { Answers division mavs.now rule errors.now result }
{
    ask(errors, mavs.len(), rule)?;
    let figures = measure(errors, mavs, division);
    Ok(Case::new(rule, figures).decision())
}
