use crate::reading::Wrong;
use decision::outcome::Fault;
use lots::lot::LotFault;
use std::fmt;

// Why a lot is not decided.
#[derive(Clone, Copy)]
pub enum Undecided {
    // this line is wrong
    Line(usize, Wrong),
    // its first line is missing
    NoLot,
    // the lot on this line is not inspected
    Lot(usize, LotFault),
    // the labels are not those of the sample
    Labels,
    // it has no list of errors
    NoErrors,
    // a list of errors is not one of a sample of so many packages
    Sample(Fault, u32),
}

impl fmt::Display for Undecided {
    fn fmt<W: fmt::Write>(&self, f: &mut fmt::Formatter<W>) -> fmt::Result {
        match self {
            Undecided::Line(line, wrong) => write!(f, "line {line}: {wrong}"),
            Undecided::NoLot => write!(f, "the first line of a lot is missing"),
            Undecided::Lot(line, LotFault::OutOfRange) => {
                write!(
                    f,
                    "line {line}: lot size, division or label is out of range"
                )
            }
            Undecided::Lot(line, LotFault::NotTaken) => {
                write!(f, "line {line}: the category does not take this lot")
            }
            Undecided::Labels => write!(
                f,
                "a random lot has a label from 1 to 999999 for each package of the sample, and only a random lot has"
            ),
            Undecided::NoErrors => write!(f, "the lot has no list of errors"),
            Undecided::Sample(Fault::Count | Fault::Mavs, sample) => {
                write!(
                    f,
                    "the sample has {sample} packages, and so has a list of errors"
                )
            }
            Undecided::Sample(Fault::Range(place), _) => {
                let package = place.saturating_add(1);
                write!(
                    f,
                    "the error of package {package} is not from -8000 to 8000"
                )
            }
            Undecided::Sample(Fault::Factor | Fault::Allowed | Fault::Average, _) => {
                write!(f, "the plan is out of range")
            }
        }
    }
}
