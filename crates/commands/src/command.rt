use categories::handbook::HandbookCategory;
use kinds::handbook::HandbookKind;
use lots::lot::Lot;
use sheet::call::Call;

// What a line asks for.
#[derive(Clone, Copy, Debug, PartialEq, Eq)]
pub enum Command {
    Lot {
        category: HandbookCategory,
        kind: HandbookKind,
        lot: Lot,
    },
    Call(Call),
    End,
}
