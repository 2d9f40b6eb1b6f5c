ghost use Rattle.std.specs.Prelude.{Some};
ghost use Rattle.findings.specs.Reports.{tare_text, counts_text, verdict_text, errors_text, findings_text, nothing_text, said_text, side_by_side_text};

use crate::closed::Findings;
use crate::consequences::Consequences;
use crate::outcome::Outcome;
use crate::side_by_side::SideBySide;
use crate::unfollowed::NothingFollows;
use decision::outcome::Decision;
use sheet::record::Record;
use std::fmt;

// A closed sheet is said in four parts. They are public for a caller whose list of errors is longer than the 48 of `Findings`.

// How many packages were drawn, from how many of them the tare was settled, and the average tare.
#[derive(Clone, Copy)]
pub struct TareLine<'a>(pub &'a Record);

impl<'a> fmt::Display for TareLine<'a> {
    ghost output = { λ line. Some (tare_text line.0.now) };

    fn fmt<W: fmt::Write>(&self, f: &mut fmt::Formatter<W>) -> fmt::Result {
        let sample = self.0.decision().figures.sample;
        let opened = self.0.tare_total();
        let average = self.0.average_tare();
        write!(f, "sample {sample}, tare {opened} {average}")
    }
}

// The total of the errors, and how many packages are short, unreasonably short, and counted.
#[derive(Clone, Copy)]
pub struct CountsLine(pub Decision);

impl fmt::Display for CountsLine {
    ghost output = { λ line. Some (counts_text line.0) };

    fn fmt<W: fmt::Write>(&self, f: &mut fmt::Formatter<W>) -> fmt::Result {
        let total = self.0.figures.total;
        let short = self.0.figures.short;
        let unreasonable = self.0.figures.unreasonable;
        let counted = self.0.counted;
        write!(
            f,
            "total {total}, short {short}, unreasonable {unreasonable}, counted {counted}"
        )
    }
}

// Deviation and limit, and in a line of its own the verdict.
#[derive(Clone, Copy)]
pub struct VerdictLines(pub Decision);

impl fmt::Display for VerdictLines {
    ghost output = { λ lines. Some (verdict_text lines.0) };

    fn fmt<W: fmt::Write>(&self, f: &mut fmt::Formatter<W>) -> fmt::Result {
        let deviation = self.0.deviation;
        let limit = self.0.limit;
        let verdict = Outcome(self.0.verdict);
        write!(f, "deviation {deviation}, limit {limit}\nverdict {verdict}")
    }
}

// The error of each package, however many there are.
#[derive(Clone, Copy)]
pub struct ErrorsLine<'a>(pub &'a [i32]);

impl<'a> fmt::Display for ErrorsLine<'a> {
    ghost output = { λ line. Some (errors_text line.0.now) };

    fn fmt<W: fmt::Write>(&self, f: &mut fmt::Formatter<W>) -> fmt::Result {
        write!(f, "errors")?;
        for error in self.0 {
            write!(f, " {error}")?;
        }
        Ok(())
    }
}

impl fmt::Display for Findings {
    ghost output = { λ findings. Some (findings_text findings) };

    fn fmt<W: fmt::Write>(&self, f: &mut fmt::Formatter<W>) -> fmt::Result {
        let decision = self.record.decision();
        let tare = TareLine(&self.record);
        let counts = CountsLine(decision);
        let verdict = VerdictLines(decision);
        let errors = ErrorsLine(self.errors.as_slice());
        write!(f, "{tare}\n{counts}\n{verdict}\n{errors}")
    }
}

impl fmt::Display for NothingFollows {
    ghost output = { λ why. Some (nothing_text why) };

    fn fmt<W: fmt::Write>(&self, f: &mut fmt::Formatter<W>) -> fmt::Result {
        match self {
            NothingFollows::NotShared => write!(
                f,
                "nothing follows: the sheets do not share category, kind, lot size, division and labels"
            ),
            NothingFollows::Undecided(_) => write!(f, "nothing follows"),
        }
    }
}

#[derive(Clone, Copy)]
struct SaidLines(Result<Consequences, NothingFollows>);

impl fmt::Display for SaidLines {
    ghost output = { λ said. Some (said_text said.0) };

    fn fmt<W: fmt::Write>(&self, f: &mut fmt::Formatter<W>) -> fmt::Result {
        match self.0 {
            Ok(consequences) => write!(f, "{consequences}"),
            Err(nothing) => write!(f, "{nothing}"),
        }
    }
}

impl fmt::Display for SideBySide {
    ghost output = { λ both. Some (side_by_side_text both) };

    fn fmt<W: fmt::Write>(&self, f: &mut fmt::Formatter<W>) -> fmt::Result {
        let first = &self.first;
        let second = &self.second;
        let said = SaidLines(self.said);
        write!(f, "first record\n{first}\nsecond record\n{second}\n{said}")
    }
}
