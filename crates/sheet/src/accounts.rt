ghost use Rattle.std.specs.Prelude.{◌≡◌};
ghost use Rattle.std.specs.Option.{option_to_list};
ghost use Rattle.sheet.specs.Refusals.{account, lot_refusal};

use crate::refusal::Refusal;
use lots::lot::LotFault;

impl From<LotFault> for Refusal {
    ghost from_gives = { λ fault e. e ≡ lot_refusal fault };

    fn from(fault: LotFault) -> Refusal {
        match fault {
            LotFault::OutOfRange => Refusal::LotRange,
            LotFault::NotTaken => Refusal::NotTaken,
        }
    }
}

// Four enums are refusals with a number and a letter, each by a definition of its own. No trait over them: no caller takes any of
// the four.
impl Refusal {
    // The number of the question that was answered by no.
    pub fn number(&self) -> u32
        ensures { result ≡ (account self.now).number }
    {
        match self {
            Refusal::LotRange => 8,
            Refusal::NotTaken => 9,
            Refusal::FewPlaces => 10,
            Refusal::NoPlace => 11,
            Refusal::Unweighable => 12,
            Refusal::Frozen => 13,
            Refusal::Unfit => 14,
            Refusal::TareAboveGross => 15,
            Refusal::Settled => 16,
            Refusal::InitialUnopened => 17,
            Refusal::TotalAboveSample => 18,
            Refusal::TotalUnopened { .. } => 19,
            Refusal::Unsettled => 20,
            Refusal::Unweighed => 21,
            Refusal::ErrorRange => 22,
        }
    }

    // The letter of its layer: P at starting, S on the sheet.
    pub fn letter(&self) -> char
        ensures { result ≡ (account self.now).letter }
    {
        match self {
            Refusal::LotRange | Refusal::NotTaken => 'P',
            _ => 'S',
        }
    }

    // How many packages are to be opened, where that is what was missing.
    pub fn total(&self) -> Option<u32>
        ensures { option_to_list result ≡ (account self.now).values }
    {
        match self {
            Refusal::TotalUnopened { total } => Some(*total),
            _ => None,
        }
    }
}
