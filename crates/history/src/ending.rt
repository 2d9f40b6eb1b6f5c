use categories::category::Category;
use kinds::kind::Kind;
use lots::lot::Lot;
use sheet::record::Record;
use sheet::refusal::Refusal;
use sheet::sheet::Sheet;

// What a sheet is started from.
#[derive(Clone, Copy, Debug, PartialEq, Eq)]
pub struct Start<C: Category, K: Kind> {
    pub category: C,
    pub kind: K,
    pub lot: Lot,
}

// How a run ended: the sheet was not started, it is still open, or it was closed. Three ways, so no Result.
pub enum Ending<C: Category, K: Kind> {
    Refused(Refusal),
    Open(Sheet<C, K>),
    Closed(Record),
}
