ghost use Rattle.std.specs.Prelude.{◌≡◌};
ghost use Rattle.kinds.specs.Entries.{allowed};

use crate::label::Label;
use rounding::nearest;

// What a row of a printed table allows.
#[derive(Clone, Copy, Debug, PartialEq, Eq)]
pub enum Entry {
    // so many base units
    Fixed(u64),
    // so many tenths of a percent of the label, exactly
    Tenths(u8),
    // so many tenths of a percent of the label, to the nearest whole number, a half to the even one
    Whole(u8),
}

impl Entry {
    pub(crate) fn allowed(self, label: Label) -> (u64, u16)
        ensures { result ≡ allowed self label.units }
    {
        match self {
            Entry::Fixed(units) => (units, 1),
            Entry::Tenths(tenths) => (label.units() * u64::from(tenths), 1_000),
            Entry::Whole(tenths) => (
                nearest(label.units() * u64::from(tenths), 1_000).unwrap(),
                1,
            ),
        }
    }
}
