ghost use Rattle.std.specs.Prelude.{◌≡◌, ◌≤◌, pos};
ghost use Rattle.decision.specs.Verdicts.{counted, spread as spread_of, falls, verdict, Deviates, Judgeable};
ghost use Rattle.decision.specs.Answer.{Concluded};

use crate::outcome::{Decision, Figures, Verdict};
use crate::rule::{Counted, Rule};

// The figures of a sample, with the rule that judges them.
#[derive(Drop)]
pub(crate) struct Case {
    rule: Rule,
    figures: Figures,
    // sample size times squares, less the square of the total
    spread: i64,
    ghost judgeable: { Judgeable rule figures },
    ghost spread_is: { spread ≡ spread_of figures },
}

impl Case {
    pub(crate) fn new(rule: Rule, figures: Figures) -> Case
        requires { Judgeable rule figures }
        ensures rule { result.rule ≡ rule }
        ensures figures { result.figures ≡ figures }
    {
        let spread = i64::from(figures.sample) * figures.squares - figures.total * figures.total;
        Case {
            rule,
            figures,
            spread,
        }
    }

    // How many packages count against the allowed number.
    fn counted(&self) -> u32
        ensures { result ≡ counted self.now.rule self.now.figures }
    {
        match self.rule.counted {
            Counted::Unreasonable => self.figures.unreasonable,
            Counted::Short => self.figures.short,
        }
    }

    // The average shortfall is above the sample error limit, squared and without fractions.
    fn falls_below(&self) -> bool
        ensures { result ≡ falls self.now.rule.factor self.now.figures }
    {
        let n = self.figures.sample;
        let total = self.figures.total;
        let factor = self.rule.factor;
        let weight = i64::from(factor * factor * n);
        total * total * i64::from(1_000_000 * (n - 1)) > weight * self.spread
    }

    // The first verdict that fits.
    fn verdict(&self) -> Verdict
        ensures { result ≡ verdict self.now.rule self.now.figures }
    {
        if self.counted() > self.rule.allowed {
            Verdict::Mav
        } else if !self.rule.average {
            Verdict::Plan
        } else if self.figures.total >= 0 {
            Verdict::Over
        } else if self.falls_below() {
            Verdict::Average
        } else {
            Verdict::Within
        }
    }

    // The sample standard deviation and the sample error limit in thousandths, fractions dropped. Both are 0
    // where the average does not apply.
    fn deviation_and_limit(&self) -> (u64, u64)
        ensures { Deviates self.now.rule self.now.figures result.0 result.1 }
    {
        if !self.rule.average {
            return (0, 0);
        }
        let n = u64::from(self.figures.sample);
        let deviation = (1_000_000 * self.spread as u64 / (n * (n - 1))).isqrt();
        let limit = deviation * u64::from(self.rule.factor) / 1_000;
        (deviation, limit)
    }

    pub(crate) fn decision(&self) -> Decision
        ensures { Concluded self.now.rule self.now.figures result }
    {
        let (deviation, limit) = self.deviation_and_limit();
        Decision {
            figures: self.figures,
            counted: self.counted(),
            verdict: self.verdict(),
            deviation,
            limit,
        }
    }
}
