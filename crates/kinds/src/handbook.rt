ghost use Rattle.std.specs.Prelude.{◌≡◌, Some, None, MatchResult, IsTrue};
ghost use Rattle.kinds.specs.Handbook.{handbook as meaning_of, rows, past, entry, kind_of, all_ascend};
ghost use Rattle.kinds.specs.Bounds.{handbook_bounds};

use crate::entry::Entry;
use crate::kind::Kind;
use crate::label::Label;
use crate::printed::{CNT, LEN, LSI, MSI, MUS};
use crate::unknown::UnknownKind;
use tables::reached_row;

// The kinds of the handbook: weight in milligrams and in ten-thousandths of a pound, liquid volume in tenths of a
// milliliter, count in items, length in millimeters, area in square centimeters.
#[derive(Clone, Copy, Debug, PartialEq, Eq)]
pub enum HandbookKind {
    Msi,
    Mus,
    Lsi,
    Cnt,
    Len,
    Are,
}

impl TryFrom<&[u8]> for HandbookKind {
    type Error = UnknownKind;

    ghost try_from_gives = { λ word r. MatchResult r
        (λ kind. kind_of word.now ≡ Some kind) (λ _. kind_of word.now ≡ None) };

    fn try_from(word: &[u8]) -> Result<Self, UnknownKind> {
        match word {
            b"msi" => Ok(HandbookKind::Msi),
            b"mus" => Ok(HandbookKind::Mus),
            b"lsi" => Ok(HandbookKind::Lsi),
            b"cnt" => Ok(HandbookKind::Cnt),
            b"len" => Ok(HandbookKind::Len),
            b"are" => Ok(HandbookKind::Are),
            _ => Err(UnknownKind),
        }
    }
}

impl HandbookKind {
    // The printed table, and what it allows past its last row.
    fn table(self) -> (&'static [(u64, Entry)], Entry)
        ensures rows { result.0.now ≡ rows self }
        ensures past { result.1 ≡ past self }
    {
        match self {
            HandbookKind::Msi => (&MSI, Entry::Tenths(20)),
            HandbookKind::Mus => (&MUS, Entry::Tenths(20)),
            HandbookKind::Lsi => (&LSI, Entry::Tenths(10)),
            HandbookKind::Cnt => (&CNT, Entry::Whole(15)),
            HandbookKind::Len => (&LEN, Entry::Tenths(50)),
            HandbookKind::Are => (&[], Entry::Tenths(30)),
        }
    }

    fn entry(self, label: Label) -> Entry
        ensures { result ≡ entry self label.units }
    {
        let (rows, past) = self.table();
        reached_row(rows, past, label.units())
    }
}

impl Kind for HandbookKind {
    ghost meaning = { meaning_of };

    ghost bounds = { λ kind label _ u. handbook_bounds kind label u };

    fn word(&self) -> &str {
        match self {
            HandbookKind::Msi => "msi",
            HandbookKind::Mus => "mus",
            HandbookKind::Lsi => "lsi",
            HandbookKind::Cnt => "cnt",
            HandbookKind::Len => "len",
            HandbookKind::Are => "are",
        }
    }

    fn is_weighed(&self) -> bool {
        matches!(self, HandbookKind::Msi | HandbookKind::Mus)
    }

    fn mav(&self, label: Label) -> (u64, u16) {
        self.entry(label).allowed(label)
    }
}

// Each row of each printed table of this crate reaches further than the row before it.
pub fn rows_ascend()
    ensures { IsTrue all_ascend }
{}
