use categories::plan::Plan;
use decision::measuring::{is_short, is_unreasonable};
use decision::outcome::Decision;
use decision::rule::Counted;
use findings::outcome::Outcome;
use std::fmt;

// The plan of the lot on a line.
#[derive(Clone, Copy)]
pub struct PlanLines {
    pub line: usize,
    pub plan: Plan,
}

impl fmt::Display for PlanLines {
    fn fmt<W: fmt::Write>(&self, f: &mut fmt::Formatter<W>) -> fmt::Result {
        let line = self.line;
        let sample = self.plan.sample;
        let factor = self.plan.rule.factor;
        let allowed = self.plan.rule.allowed;
        let counted = match self.plan.rule.counted {
            Counted::Unreasonable => "unreasonable",
            Counted::Short => "short",
        };
        write!(
            f,
            "lot on line {line}\nsample {sample}\nfactor {factor}\nallowed {allowed} {counted}"
        )
    }
}

// A package of the sample: its place from 0, its error and its MAV, of a division of so many base units.
#[derive(Clone, Copy)]
struct PackageLine {
    place: usize,
    error: i32,
    mav: (u64, u16),
    division: u32,
}

impl fmt::Display for PackageLine {
    fn fmt<W: fmt::Write>(&self, f: &mut fmt::Formatter<W>) -> fmt::Result {
        let package = self.place.saturating_add(1);
        let (numerator, denominator) = self.mav;
        let error = self.error;
        let short = if is_short(error) { " short" } else { "" };
        let unreasonable = if is_unreasonable(error, self.division, self.mav) {
            " unreasonable"
        } else {
            ""
        };
        write!(
            f,
            "package {package} mav {numerator}/{denominator} error {error}{short}{unreasonable}"
        )
    }
}

#[derive(Clone, Copy)]
struct DecisionLines(Decision);

impl fmt::Display for DecisionLines {
    fn fmt<W: fmt::Write>(&self, f: &mut fmt::Formatter<W>) -> fmt::Result {
        let figures = self.0.figures;
        let total = figures.total;
        let squares = figures.squares;
        let short = figures.short;
        let unreasonable = figures.unreasonable;
        let deviation = self.0.deviation;
        let limit = self.0.limit;
        let verdict = Outcome(self.0.verdict);
        writeln!(f, "total {total}\nsquares {squares}")?;
        writeln!(f, "short {short}\nunreasonable {unreasonable}")?;
        write!(f, "deviation {deviation}\nlimit {limit}\nverdict {verdict}")
    }
}

// A list of errors that is decided, with the MAVs and the division that it is decided by.
#[derive(Clone, Copy)]
pub struct DecidedLines<'a> {
    pub errors: &'a [i32],
    pub mavs: &'a [(u64, u16)],
    pub division: u32,
    pub decision: Decision,
}

impl<'a> fmt::Display for DecidedLines<'a> {
    fn fmt<W: fmt::Write>(&self, f: &mut fmt::Formatter<W>) -> fmt::Result {
        let division = self.division;
        for (place, (error, mav)) in self.errors.iter().zip(self.mavs).enumerate() {
            let line = PackageLine {
                place,
                error: *error,
                mav: *mav,
                division,
            };
            writeln!(f, "{line}")?;
        }
        let decision = DecisionLines(self.decision);
        write!(f, "{decision}")
    }
}
