ghost use Rattle.std.specs.Prelude.{◌≡◌, Some, None, MatchResult, IsTrue};
ghost use Rattle.categories.specs.Handbook.{handbook as meaning_of, letter_of, low_count, takes, rows, past, row_of, plan_of, total, all_ascend};
ghost use Rattle.categories.specs.Bounds.{handbook_bounds};

use crate::category::Category;
use crate::plan::{Plan, Row};
use crate::printed::{A, A_PAST, A_TARE, B, B_PAST, B_TARE, C, C_PAST};
use crate::unknown::UnknownCategory;
use decision::rule::{Counted, Rule};
use kinds::words::{is_count, is_weight};
use tables::reached_row;

// The categories of the handbook: A for most lots, B for meat and poultry in a plant, C for low counts.
#[derive(Clone, Copy, Debug, PartialEq, Eq)]
pub enum HandbookCategory {
    A,
    B,
    C,
}

impl TryFrom<char> for HandbookCategory {
    type Error = UnknownCategory;

    ghost try_from_gives = { λ letter r. MatchResult r
        (λ category. letter_of letter ≡ Some category) (λ _. letter_of letter ≡ None) };

    fn try_from(letter: char) -> Result<Self, UnknownCategory> {
        match letter {
            'A' => Ok(HandbookCategory::A),
            'B' => Ok(HandbookCategory::B),
            'C' => Ok(HandbookCategory::C),
            _ => Err(UnknownCategory),
        }
    }
}

// A count label of 50 or less.
fn is_low_count(word: &str, label: u64) -> bool
    ensures { result ≡ low_count word.now label }
{
    is_count(word) && label <= 50
}

impl HandbookCategory {
    // The printed table of sampling plans, and the row past its end.
    fn table(self) -> (&'static [(u64, Row)], Row)
        ensures rows { result.0.now ≡ rows self }
        ensures past { result.1 ≡ past self }
    {
        match self {
            HandbookCategory::A => (&A, A_PAST),
            HandbookCategory::B => (&B, B_PAST),
            HandbookCategory::C => (&C, C_PAST),
        }
    }

    fn row(self, size: u32) -> Row
        ensures { result ≡ row_of self size }
    {
        let (rows, past) = self.table();
        reached_row(rows, past, u64::from(size))
    }

    fn takes(self, size: u32, word: &str, label: u64) -> bool
        ensures { result ≡ takes self size word.now label }
    {
        let low_count = is_low_count(word, label);
        match self {
            HandbookCategory::A => size != 0 && !low_count,
            HandbookCategory::B => size >= 10 && is_weight(word),
            HandbookCategory::C => size != 0 && low_count,
        }
    }

    fn plan_of(self, row: Row) -> Plan
        ensures { result ≡ plan_of self row }
    {
        let (average, counted) = match self {
            HandbookCategory::A => (row.sample > 1, Counted::Unreasonable),
            HandbookCategory::B => (true, Counted::Unreasonable),
            HandbookCategory::C => (false, Counted::Short),
        };
        Plan {
            sample: row.sample,
            rule: Rule {
                average,
                factor: row.factor,
                allowed: row.allowed,
                counted,
            },
            initial: row.initial,
        }
    }

    fn total_of(self, row: Row, ratio: u64) -> u32
        ensures { result ≡ total self row ratio }
    {
        let initial = row.initial;
        match self {
            HandbookCategory::A => {
                let (of_12, of_24, of_48) = reached_row(
                    &A_TARE,
                    (initial, initial, initial),
                    ratio,
                );
                match row.sample {
                    12 => of_12,
                    24 => of_24,
                    48 => of_48,
                    _ => initial,
                }
            }
            HandbookCategory::B => {
                let (of_10, of_30) = reached_row(&B_TARE, (initial, initial), ratio);
                match row.sample {
                    10 => of_10,
                    30 => of_30,
                    _ => initial,
                }
            }
            HandbookCategory::C => initial,
        }
    }
}

impl Category for HandbookCategory {
    ghost meaning = { meaning_of };

    ghost bounds = { λ category size word label. handbook_bounds category size word label };

    fn plan(&self, size: u32, word: &str, label: u64) -> Option<Plan> {
        self.takes(size, word, label)
            .then(|| self.plan_of(self.row(size)))
    }

    fn tare_total(&self, size: u32, word: &str, label: u64, ratio: u64) -> u32 {
        if self.takes(size, word, label) {
            self.total_of(self.row(size), ratio)
        } else {
            0
        }
    }
}

// Each row of each printed table of this crate reaches further than the row before it.
pub fn rows_ascend()
    ensures { IsTrue all_ascend }
{}
