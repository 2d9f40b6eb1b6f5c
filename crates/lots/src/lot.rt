ghost use Rattle.std.specs.Prelude.{◌≡◌, Some};
ghost use Rattle.lots.specs.Lots.{label_in_range, division_in_range, in_range, suits, units};

use kinds::words::{is_count, is_weight};

// An inspection lot. Labels are in divisions of the scale.
#[derive(Clone, Copy, Debug, PartialEq, Eq)]
pub struct Lot {
    // how many packages it has
    pub size: u32,
    // how many base units of the kind one division of the scale has
    pub division: u32,
    // none in a random lot, where each package has a label of its own
    pub label: Option<u32>,
    // the moisture allowance, in tenths of a percent of the label
    pub allowance: u32,
}

// Why a lot is not inspected, in the order in which it is asked.
#[derive(Clone, Copy, Debug, PartialEq, Eq)]
pub enum LotFault {
    // a number of it is out of range
    OutOfRange,
    // the category does not take it
    NotTaken,
}

// From 1 to 999999. Each range has a name; ends as const parameters would say less.
pub fn is_label(label: u32) -> bool
    ensures { result ≡ label_in_range (Some label) }
{
    (1..=999_999).contains(&label)
}

pub(crate) fn is_division(division: u32) -> bool
    ensures { result ≡ division_in_range division }
{
    (1..=100_000).contains(&division)
}

impl Lot {
    // The label in base units, 0 in a random lot.
    pub fn units(&self) -> u64
        ensures { result ≡ units self.now.label self.now.division }
    {
        self.label
            .map_or(0, |label| u64::from(label) * u64::from(self.division))
    }

    pub(crate) fn is_in_range(&self) -> bool
        ensures { result ≡ in_range self.now }
    {
        (1..=1_000_000).contains(&self.size)
            && is_division(self.division)
            && self.label.is_none_or(is_label)
            && self.allowance <= 100
    }

    // Random lots and allowances are for weights, and counts are read in single items.
    pub(crate) fn suits(&self, word: &str) -> bool
        ensures { result ≡ suits word.now self.now }
    {
        let plain = self.label.is_some() && self.allowance == 0;
        (is_weight(word) || plain) && (!is_count(word) || self.division == 1)
    }
}
