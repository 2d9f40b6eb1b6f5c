ghost use Rattle.std.specs.Prelude.{◌≡◌, ◌↔◌, IsTrue};
ghost use Rattle.decision.specs.Verdicts.{verdict_word, Passes};

use crate::outcome::Verdict;

impl Verdict {
    // As a report says it.
    pub fn word(self) -> &'static str
        ensures { result.now ≡ verdict_word self }
    {
        match self {
            Verdict::Mav => "mav",
            Verdict::Plan => "plan",
            Verdict::Over => "over",
            Verdict::Average => "average",
            Verdict::Within => "within",
        }
    }

    pub fn passes(self) -> bool
        ensures { IsTrue result ↔ Passes self }
    {
        match self {
            Verdict::Plan | Verdict::Over | Verdict::Within => true,
            Verdict::Mav | Verdict::Average => false,
        }
    }
}
