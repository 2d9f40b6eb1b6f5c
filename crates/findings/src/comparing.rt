ghost use Rattle.std.specs.Prelude.{◌≡◌, ◌↔◌, IsTrue};
ghost use Rattle.findings.specs.Comparing.{Share, Answers};

use crate::closed::Findings;
use crate::consequences::{Consequences, Subject};
use crate::side_by_side::SideBySide;
use crate::unfollowed::NothingFollows;
use comparison::comparing::compare;

impl Findings {
    // They share category, kind, lot size, division and labels: field by field, since allowances may differ.
    fn shares(&self, other: &Findings) -> bool
        ensures { IsTrue result ↔ Share self.now other.now }
    {
        let (lot, others) = (self.start.lot, other.start.lot);
        self.start.category == other.start.category
            && self.start.kind == other.start.kind
            && lot.size == others.size
            && lot.division == others.division
            && lot.label == others.label
            && self.labels.as_slice() == other.labels.as_slice()
    }

    // What the rule for two says of two closed sheets.
    pub fn compare(&self, other: &Findings) -> Result<Consequences, NothingFollows>
        ensures { Answers self.now other.now result }
    {
        if !self.shares(other) {
            return Err(NothingFollows::NotShared);
        }
        let compared = compare(
            self.errors.as_slice(),
            other.errors.as_slice(),
            self.mavs.as_slice(),
            self.start.lot.division,
            self.record.rule(),
        );
        match compared {
            Ok(comparison) => Ok(Consequences {
                subject: Subject::Sheets,
                premises: comparison.premises,
            }),
            Err(refused) => Err(NothingFollows::Undecided(refused)),
        }
    }
}

impl SideBySide {
    pub fn of(first: Findings, second: Findings) -> SideBySide
        ensures sheets { (result.first ≡ first) × (result.second ≡ second) }
        ensures said { Answers first second result.said }
    {
        let said = first.compare(&second);
        SideBySide {
            first,
            second,
            said,
        }
    }
}
