// What is said of a lot. Plan, over and within pass.
#[derive(Clone, Copy, Debug, PartialEq, Eq)]
pub enum Verdict {
    // more packages count against the lot than are allowed
    Mav,
    // the average does not apply
    Plan,
    // the average error is not below zero
    Over,
    // the average shortfall is above the sample error limit
    Average,
    // it is not
    Within,
}

// What is counted and added up of a sample.
#[derive(Clone, Copy, Debug, PartialEq, Eq)]
pub struct Figures {
    pub sample: u32,
    pub total: i64,
    pub squares: i64,
    pub short: u32,
    pub unreasonable: u32,
}

#[derive(Clone, Copy, Debug, PartialEq, Eq)]
pub struct Decision {
    pub figures: Figures,
    // how many packages count against the allowed number
    pub counted: u32,
    pub verdict: Verdict,
    // the sample standard deviation and the sample error limit, in thousandths of a division
    pub deviation: u64,
    pub limit: u64,
}

// Why a sample is not decided, in the order in which it is asked.
#[derive(Clone, Copy, Debug, PartialEq, Eq)]
pub enum Fault {
    // not 1 to 48 errors
    Count,
    // not one MAV for each error
    Mavs,
    // the error at this place, from 0, is not from -8000 to 8000
    Range(usize),
    // the factor times the sample size is above 18000
    Factor,
    // the allowed number is above the sample size
    Allowed,
    // the average of fewer than two errors
    Average,
}
