ghost use Rattle.std.specs.Prelude.{◌≡◌};
ghost use Rattle.packages.specs.Readings.{read, held_gross, held_tare, own_label};

use crate::reading::Reading;

impl Reading {
    // By what a record holds. With no gross weight the place is empty.
    pub fn of(gross: Option<u32>, label: Option<u32>, tare: Option<u32>) -> Reading
        ensures { result ≡ read gross label tare }
    {
        match (gross, tare) {
            (None, _) => Reading::Empty,
            (Some(gross), None) => Reading::Weighed { gross, label },
            (Some(gross), Some(tare)) => Reading::Opened { gross, label, tare },
        }
    }

    // The gross weight, if the package is weighed.
    pub fn gross(self) -> Option<u32>
        ensures { result ≡ held_gross self }
    {
        match self {
            Reading::Empty => None,
            Reading::Weighed { gross, .. } | Reading::Opened { gross, .. } => Some(gross),
        }
    }

    // The tare, if the package is opened.
    pub fn tare(self) -> Option<u32>
        ensures { result ≡ held_tare self }
    {
        match self {
            Reading::Empty | Reading::Weighed { .. } => None,
            Reading::Opened { tare, .. } => Some(tare),
        }
    }

    // The package's own label, if it has one.
    pub fn label(self) -> Option<u32>
        ensures { result ≡ own_label self }
    {
        match self {
            Reading::Empty => None,
            Reading::Weighed { label, .. } | Reading::Opened { label, .. } => label,
        }
    }
}
