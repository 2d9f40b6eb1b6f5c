ghost use Rattle.std.specs.Prelude.{true, false, None};
ghost use Rattle.packages.specs.Readings.{read as reading_of};

use crate::package::Package;
use crate::reading::Reading;

// The record of a package whose label is the sheet's. With no gross weight the place is empty.
#[derive(Clone, Copy, Debug, PartialEq, Eq)]
pub struct Standard {
    pub gross: Option<u32>,
    pub tare: Option<u32>,
}

impl Package for Standard {
    ghost reading = { λ p. reading_of p.gross None p.tare };

    ghost labeled = { false };

    fn read(&self) -> Reading {
        Reading::of(self.gross, None, self.tare)
    }

    fn holding(held: Reading) -> Standard {
        Standard {
            gross: held.gross(),
            tare: held.tare(),
        }
    }
}

// The record of a package with a label of its own.
#[derive(Clone, Copy, Debug, PartialEq, Eq)]
pub struct Random {
    pub gross: Option<u32>,
    pub label: Option<u32>,
    pub tare: Option<u32>,
}

impl Package for Random {
    ghost reading = { λ p. reading_of p.gross p.label p.tare };

    ghost labeled = { true };

    fn read(&self) -> Reading {
        Reading::of(self.gross, self.label, self.tare)
    }

    fn holding(held: Reading) -> Random {
        Random {
            gross: held.gross(),
            label: held.label(),
            tare: held.tare(),
        }
    }
}
