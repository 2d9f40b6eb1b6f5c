use decision::outcome::{Decision, Fault};

// Which premises of the rule for two lists of errors hold, and the first place that breaks one. Places count from 0.
#[derive(Clone, Copy, Debug, PartialEq, Eq)]
pub struct Premises {
    // the first place whose error is lower in the second list
    pub lower: Option<usize>,
    // the first two places of which the one that stood lower rose by more
    pub crossed: Option<(usize, usize)>,
    // the average error of the first list is not below zero
    pub average: bool,
}

// Two lists of errors for one lot, decided and compared.
#[derive(Clone, Copy, Debug, PartialEq, Eq)]
pub struct Comparison {
    pub first: Decision,
    pub second: Decision,
    pub premises: Premises,
}

// Which list is not decided, and why.
#[derive(Clone, Copy, Debug, PartialEq, Eq)]
pub enum Refused {
    First(Fault),
    Second(Fault),
}
