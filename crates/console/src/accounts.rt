ghost use Rattle.std.specs.Prelude.{◌≡◌};
ghost use Rattle.console.specs.Denials.{account};
ghost use Rattle.console.specs.declared.denial.Denial.TheVariants.{Refused};

use crate::denial::Denial;
use sheet::refusal::Refusal;

impl From<Refusal> for Denial {
    ghost from_gives = { λ refusal denial. denial ≡ Refused refusal };

    fn from(refusal: Refusal) -> Denial {
        Self::Refused(refusal)
    }
}

// Four enums are refusals with a number and a letter, each by a definition of its own. No trait over them: no caller takes any of
// the four.
impl Denial {
    // The number of the question that was answered by no.
    pub fn number(&self) -> u32
        ensures { result ≡ (account self.now).number }
    {
        match self {
            Denial::NotOpen => 6,
            Denial::Started => 7,
            Denial::Refused(refusal) => refusal.number(),
        }
    }

    // The letter of its layer: K, the console, or that of the sheet's refusal.
    pub fn letter(&self) -> char
        ensures { result ≡ (account self.now).letter }
    {
        match self {
            Denial::NotOpen | Denial::Started => 'K',
            Denial::Refused(refusal) => refusal.letter(),
        }
    }
}
