// What a place of the package list holds. Weights and labels are in divisions.
#[derive(Clone, Copy, Debug, PartialEq, Eq)]
pub enum Reading {
    Empty,
    Weighed {
        gross: u32,
        label: Option<u32>,
    },
    Opened {
        gross: u32,
        label: Option<u32>,
        tare: u32,
    },
}
