use arrayvec::ArrayVec;
use categories::handbook::HandbookCategory;
use history::ending::Start;
use kinds::handbook::HandbookKind;
use sheet::record::Record;

// What a sheet of the handbook is started from.
pub type HandbookStart = Start<HandbookCategory, HandbookKind>;

// What a closed sheet came to: what it was started from, its record, and for each package of the sample the label, the package
// error and the MAV.
#[derive(Drop)]
pub struct Findings {
    pub start: HandbookStart,
    pub record: Record,
    // lists beside one another, since the rule for two takes errors and MAVs as two slices; off the heap, so that finding cannot fail
    pub labels: ArrayVec<u32, 48>,
    pub errors: ArrayVec<i32, 48>,
    pub mavs: ArrayVec<(u64, u16), 48>,
}
