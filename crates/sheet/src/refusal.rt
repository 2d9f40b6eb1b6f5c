// Why a start or a call is refused.
#[derive(Clone, Copy, Debug, PartialEq, Eq)]
pub enum Refusal {
    // a number of the lot is out of range
    LotRange,
    // the category does not take the lot
    NotTaken,
    // the package list has fewer places than the sample
    FewPlaces,
    // the place is not one of the sample
    NoPlace,
    // the gross weight is out of range, or a label is given where none belongs, missing or out of range
    Unweighable,
    // the place is frozen
    Frozen,
    // the place is not empty for weighing, or not weighed for the others
    Unfit,
    // the tare is above the gross weight
    TareAboveGross,
    // the tare is settled already
    Settled,
    // a place of the initial tare sample is not opened
    InitialUnopened,
    // more packages are to be opened than the sample has
    TotalAboveSample,
    // a place of the total tare sample, of so many, is not opened
    TotalUnopened { total: u32 },
    // the tare is not settled
    Unsettled,
    // a place of the sample is not weighed, or has not the label that belongs there
    Unweighed,
    // a package error is not from -8000 to 8000
    ErrorRange,
}
