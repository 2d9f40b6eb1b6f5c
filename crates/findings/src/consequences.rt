ghost use Rattle.std.specs.Prelude.{◌≡◌, Some};
ghost use Rattle.findings.specs.Sayings.{counts_text, passing_text, order_text, average_text, consequences_text};

use comparison::premises::Premises;
use std::fmt;

// Of what the rule for two is said.
#[derive(Clone, Copy, Debug, PartialEq, Eq)]
pub enum Subject {
    // two lists of errors that one lot may have
    Lists,
    // the records of two closed sheets
    Sheets,
}

impl Subject {
    fn counts(self) -> &'static str
        ensures { result.now ≡ counts_text self }
    {
        match self {
            Subject::Lists => "at most as many counted",
            Subject::Sheets => "the second counts no more packages",
        }
    }

    fn passing(self) -> &'static str
        ensures { result.now ≡ passing_text self }
    {
        match self {
            Subject::Lists => "passes if the first did",
            Subject::Sheets => "it passed if the first did",
        }
    }
}

// What follows of the order of the errors, by the first two that break it.
#[derive(Clone, Copy)]
struct Order {
    subject: Subject,
    crossed: Option<(usize, usize)>,
}

impl fmt::Display for Order {
    ghost output = { λ order. Some (order_text order.subject order.crossed) };

    fn fmt<W: fmt::Write>(&self, f: &mut fmt::Formatter<W>) -> fmt::Result {
        match self.crossed {
            None => {
                let passing = self.subject.passing();
                write!(f, "rises keep the order: {passing}")
            }
            Some((low, high)) => {
                let low = low.saturating_add(1);
                let high = high.saturating_add(1);
                write!(
                    f,
                    "nothing follows from the order: package {low} stood below package {high} and rose by more"
                )
            }
        }
    }
}

// What follows of the average error.
#[derive(Clone, Copy)]
struct Average {
    subject: Subject,
    holds: bool,
}

impl fmt::Display for Average {
    ghost output = { λ average. Some (average_text average.subject average.holds) };

    fn fmt<W: fmt::Write>(&self, f: &mut fmt::Formatter<W>) -> fmt::Result {
        if self.holds {
            let passing = self.subject.passing();
            write!(f, "average not below zero: {passing}")
        } else {
            write!(f, "nothing follows from the average: it is below zero")
        }
    }
}

// What the rule for two says, by the premises that hold. Packages count from 1.
#[derive(Clone, Copy)]
pub struct Consequences {
    pub subject: Subject,
    pub premises: Premises,
}

impl fmt::Display for Consequences {
    ghost output = { λ said. Some (consequences_text said.subject said.premises) };

    fn fmt<W: fmt::Write>(&self, f: &mut fmt::Formatter<W>) -> fmt::Result {
        let subject = self.subject;
        match self.premises.lower {
            Some(place) => {
                let package = place.saturating_add(1);
                write!(
                    f,
                    "nothing follows: the error of package {package} is lower"
                )
            }
            None => {
                let counts = subject.counts();
                let order = Order {
                    subject,
                    crossed: self.premises.crossed,
                };
                let average = Average {
                    subject,
                    holds: self.premises.average,
                };
                write!(f, "no error lower: {counts}\n{order}\n{average}")
            }
        }
    }
}
