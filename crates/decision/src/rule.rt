// Which packages count against the allowed number.
#[derive(Clone, Copy, Debug, PartialEq, Eq)]
pub enum Counted {
    Unreasonable,
    Short,
}

// How a sampling plan has a lot decided.
#[derive(Clone, Copy, Debug, PartialEq, Eq)]
pub struct Rule {
    // the average error is tested
    pub average: bool,
    // the sample correction factor, in thousandths
    pub factor: u32,
    // the allowed number
    pub allowed: u32,
    pub counted: Counted,
}
