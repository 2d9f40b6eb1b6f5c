ghost use Rattle.std.specs.Prelude.{◌≤◌};

use decision::outcome::Decision;
use decision::rule::Rule;

// The closed record of a lot. Only closing makes one.
#[derive(Drop)]
pub struct Record {
    pub(crate) tare_total: u32,
    pub(crate) average_tare: u32,
    pub(crate) rule: Rule,
    pub(crate) decision: Decision,
    ghost unreasonable_are_short: { decision.figures.unreasonable ≤ decision.figures.short },
    ghost short_are_drawn: { decision.figures.short ≤ decision.figures.sample },
    ghost few_are_drawn: { decision.figures.sample ≤ 48 },
}
