ghost use Rattle.std.specs.Prelude.{◌≡◌};

use crate::record::Record;
use decision::outcome::Decision;
use decision::rule::Rule;

impl Record {
    // From how many packages the tare was settled.
    pub fn tare_total(&self) -> u32
        ensures { result ≡ self.now.tare_total }
    {
        self.tare_total
    }

    pub fn average_tare(&self) -> u32
        ensures { result ≡ self.now.average_tare }
    {
        self.average_tare
    }

    // The factor, the allowed number, and the two choices of the category.
    pub fn rule(&self) -> Rule
        ensures { result ≡ self.now.rule }
    {
        self.rule
    }

    // The sample size, total, squares and counts, the deviation, the limit and the verdict.
    pub fn decision(&self) -> Decision
        ensures { result ≡ self.now.decision }
    {
        self.decision
    }
}
