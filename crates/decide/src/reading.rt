use categories::handbook::HandbookCategory;
use categories::unknown::UnknownCategory;
use kinds::handbook::HandbookKind;
use kinds::unknown::UnknownKind;
use lots::lot::Lot;
use std::alloc::{AllocError, Global};
use std::fmt;
use std::num::ParseIntError;
use std::str::FromStr;

// What is wrong with a line.
#[derive(Clone, Copy)]
pub enum Wrong {
    Order,
    Words,
    Category,
    Kind,
    Number,
    Lists,
}

impl fmt::Display for Wrong {
    fn fmt<W: fmt::Write>(&self, f: &mut fmt::Formatter<W>) -> fmt::Result {
        f.write_str(match self {
            Wrong::Order => "a lot begins with one line `lot`, then lines `labels` and `errors`",
            Wrong::Words => "a lot is category, kind, lot size, division and label",
            Wrong::Category => "the category is A, B or C",
            Wrong::Kind => "the kind is msi, mus, lsi, cnt, len or are",
            Wrong::Number => "a number is a whole number in range",
            Wrong::Lists => "a lot has at most two lists of errors",
        })
    }
}

impl From<UnknownCategory> for Wrong {
    fn from(_: UnknownCategory) -> Wrong {
        Wrong::Category
    }
}

impl From<UnknownKind> for Wrong {
    fn from(_: UnknownKind) -> Wrong {
        Wrong::Kind
    }
}

impl From<ParseIntError> for Wrong {
    fn from(_: ParseIntError) -> Wrong {
        Wrong::Number
    }
}

// Why a line is not taken.
#[derive(Drop)]
enum Untaken {
    Wrong(Wrong),
    OutOfMemory(AllocError),
}

impl From<Wrong> for Untaken {
    fn from(wrong: Wrong) -> Untaken {
        Untaken::Wrong(wrong)
    }
}

impl From<AllocError> for Untaken {
    fn from(error: AllocError) -> Untaken {
        Untaken::OutOfMemory(error)
    }
}

// A lot as it was typed, and on which line.
#[derive(Clone, Copy)]
pub struct Typed {
    pub line: usize,
    pub category: HandbookCategory,
    pub kind: HandbookKind,
    pub lot: Lot,
}

// The lines up to a blank one: a lot, for a random lot its labels, and one or two lists of errors.
#[derive(Drop)]
pub struct Block {
    pub typed: Option<Typed>,
    pub labels: Vec<u32>,
    pub first: Option<Vec<i32>>,
    pub second: Option<Vec<i32>>,
    // the first line that is wrong; those behind it are passed over
    pub wrong: Option<(usize, Wrong)>,
}

fn number_of(word: Option<&str>) -> Result<u32, Wrong> {
    Ok(word.ok_or(Wrong::Words)?.parse::<u32>()?)
}

fn category_of(word: Option<&str>) -> Result<HandbookCategory, Wrong> {
    let letter = word.ok_or(Wrong::Words)?.parse::<char>();
    Ok(HandbookCategory::try_from(letter.map_err(|_| Wrong::Category)?)?)
}

fn kind_of(word: Option<&str>) -> Result<HandbookKind, Wrong> {
    Ok(HandbookKind::try_from(word.ok_or(Wrong::Words)?.as_bytes())?)
}

// `A mus 250 10 1000`, with `-` for the label of a random lot.
fn read_lot(line: usize, text: &str) -> Result<Typed, Wrong> {
    let mut words = text.split_whitespace();
    let category = category_of(words.next())?;
    let kind = kind_of(words.next())?;
    let size = number_of(words.next())?;
    let division = number_of(words.next())?;
    let label = match words.next() {
        Some("-") => None,
        last => Some(number_of(last)?),
    };
    if words.next().is_some() {
        return Err(Wrong::Words);
    }
    Ok(Typed {
        line,
        category,
        kind,
        lot: Lot {
            size,
            division,
            label,
            allowance: 0,
        },
    })
}

fn numbers_of<N: FromStr<Err = ParseIntError> + Drop>(
    heap: Global,
    text: &str,
) -> Result<Vec<N>, Untaken> {
    text.split_whitespace()
        .map(|word| word.parse::<N>().map_err(|_| Untaken::Wrong(Wrong::Number)))
        .try_collect(heap)
}

impl Block {
    pub(crate) fn new(heap: Global) -> Block {
        Block {
            typed: None,
            labels: Vec::new(heap),
            first: None,
            second: None,
            wrong: None,
        }
    }

    fn take_lot(&mut self, line: usize, text: &str) -> Result<(), Wrong> {
        if self.typed.is_some() {
            return Err(Wrong::Order);
        }
        self.typed = Some(read_lot(line, text)?);
        Ok(())
    }

    fn take_errors(&mut self, errors: Vec<i32>) -> Result<(), Wrong> {
        if self.first.is_none() {
            self.first = Some(errors);
        } else if self.second.is_none() {
            self.second = Some(errors);
        } else {
            return Err(Wrong::Lists);
        }
        Ok(())
    }

    fn take(&mut self, heap: Global, line: usize, text: &str) -> Result<(), Untaken> {
        let (word, rest) = text.split_once(' ').unwrap_or((text, ""));
        match word {
            "lot" => self.take_lot(line, rest)?,
            "labels" => self.labels = numbers_of(heap, rest)?,
            "errors" => self.take_errors(numbers_of(heap, rest)?)?,
            _ => return Err(Untaken::Wrong(Wrong::Order)),
        }
        Ok(())
    }

    // One line more; after the first that is wrong, lines are passed over.
    pub(crate) fn add(&mut self, heap: Global, line: usize, text: &str) -> Result<(), AllocError> {
        if self.wrong.is_some() {
            return Ok(());
        }
        match self.take(heap, line, text) {
            Ok(()) => Ok(()),
            Err(Untaken::Wrong(wrong)) => {
                self.wrong = Some((line, wrong));
                Ok(())
            }
            Err(Untaken::OutOfMemory(error)) => Err(error),
        }
    }
}
