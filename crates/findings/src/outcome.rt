ghost use Rattle.std.specs.Prelude.{Some};
ghost use Rattle.findings.specs.Sayings.{outcome_text};

use decision::outcome::Verdict;
use std::fmt;

// A verdict, said with whether the lot passes by it.
#[derive(Clone, Copy, Debug, PartialEq, Eq)]
pub struct Outcome(pub Verdict);

impl fmt::Display for Outcome {
    ghost output = { λ outcome. Some (outcome_text outcome.0) };

    fn fmt<W: fmt::Write>(&self, f: &mut fmt::Formatter<W>) -> fmt::Result {
        let word = self.0.word();
        let passing = if self.0.passes() { "passes" } else { "fails" };
        write!(f, "{word}: {passing}")
    }
}
