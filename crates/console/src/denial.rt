use sheet::record::Record;
use sheet::refusal::Refusal;

// Why a command is not carried out.
#[derive(Clone, Copy, Debug, PartialEq, Eq)]
pub enum Denial {
    // no sheet is open
    NotOpen,
    // a sheet was started already
    Started,
    // the sheet refused it
    Refused(Refusal),
}

// What a command comes to: a record where it closed the sheet, nothing elsewhere, or why it is not carried out.
pub type Reply = Result<Option<Record>, Denial>;
