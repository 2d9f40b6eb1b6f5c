use categories::handbook::HandbookCategory;
use kinds::handbook::HandbookKind;
use sheet::sheet::Sheet;

// Where an inspection stands: no sheet was started yet, one is open, or it was closed. Three cases, so no option.
pub enum Session {
    Idle,
    Open(Sheet<HandbookCategory, HandbookKind>),
    Closed,
}

impl Session {
    // Lets the inspection go, with its sheet if one is open.
    pub(crate) fn abandon(self) {
        match self {
            Session::Open(sheet) => {
                let _ = sheet.discard();
            }
            Session::Idle | Session::Closed => {}
        }
    }
}
