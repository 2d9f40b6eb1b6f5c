ghost use Rattle.std.specs.Prelude.{◌≡◌, Some};
ghost use Rattle.std.specs.Option.{option_to_list};
ghost use Rattle.console.specs.Denials.{account};
ghost use Rattle.findings.specs.Calls.{answer_text};

use console::denial::Denial;
use std::fmt;

// How many packages are to be opened, where that is what was missing.
fn total_of(denial: Denial) -> Option<u32>
    ensures { option_to_list result ≡ (account denial).values }
{
    match denial {
        Denial::Refused(refusal) => refusal.total(),
        Denial::NotOpen | Denial::Started => None,
    }
}

// The answer to what was asked: why it was refused, none where it was accepted.
#[derive(Clone, Copy)]
pub struct Answer(pub Option<Denial>);

impl fmt::Display for Answer {
    ghost output = { λ answer. Some (answer_text answer.0) };

    fn fmt<W: fmt::Write>(&self, f: &mut fmt::Formatter<W>) -> fmt::Result {
        let Some(denial) = self.0 else {
            return write!(f, "accepted");
        };
        let letter = denial.letter();
        let number = denial.number();
        match total_of(denial) {
            Some(total) => write!(f, "refused {letter} {number}, {total} to open"),
            None => write!(f, "refused {letter} {number}"),
        }
    }
}
