use decision::rule::Rule;

// A sampling plan.
#[derive(Clone, Copy, Debug, PartialEq, Eq)]
pub struct Plan {
    // how many packages are drawn
    pub sample: u32,
    // how the lot is decided
    pub rule: Rule,
    // how many packages are opened first to find the tare
    pub initial: u32,
}

// A row of a printed table of sampling plans.
#[derive(Clone, Copy, Debug, PartialEq, Eq)]
pub struct Row {
    pub sample: u32,
    // the sample correction factor, in thousandths
    pub factor: u32,
    pub allowed: u32,
    pub initial: u32,
}
