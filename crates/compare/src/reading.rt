use categories::handbook::HandbookCategory;
use findings::closed::HandbookStart;
use history::ending::Start;
use history::entry::Entry;
use kinds::handbook::HandbookKind;
use lots::lot::Lot;
use sheet::call::Call;
use std::alloc::{AllocError, Global};
use std::str::SplitWhitespace;

// A lot line and the calls after it. The form is this program's own, so it has a reader of its own.
#[derive(Drop)]
pub struct Block {
    pub start: Option<HandbookStart>,
    pub entries: Vec<Entry>,
    // the first line that cannot be read; those behind it are passed over
    pub wrong: Option<usize>,
}

// A word that is no number counts as none.
fn next_number(words: &mut SplitWhitespace<'_>) -> Option<u32> {
    words.next()?.parse::<u32>().ok()
}

// `A mus 3 10 500 0`, with `-` for the label of a random sheet.
fn read_lot(text: &str) -> Option<HandbookStart> {
    let mut words = text.split_whitespace();
    let category = HandbookCategory::try_from(words.next()?.parse::<char>().ok()?).ok()?;
    let kind = HandbookKind::try_from(words.next()?.as_bytes()).ok()?;
    let size = next_number(&mut words)?;
    let division = next_number(&mut words)?;
    let label = match words.next()? {
        "-" => None,
        word => Some(word.parse::<u32>().ok()?),
    };
    let allowance = next_number(&mut words)?;
    let lot = Lot {
        size,
        division,
        label,
        allowance,
    };
    let start = Start {
        category,
        kind,
        lot,
    };
    words.next().is_none().then_some(start)
}

// `wt 1 520`, `fix 1 520 500`, `del 1`, `op 1 20`, `set`, `re` or `end`.
fn read_entry(text: &str) -> Option<Entry> {
    let mut words = text.split_whitespace();
    let verb = words.next()?;
    let first = next_number(&mut words);
    let second = next_number(&mut words);
    let label = next_number(&mut words);
    match (verb, first, second) {
        ("wt", Some(place), Some(gross)) => Some(Entry::Call(Call::Weigh {
            place,
            gross,
            label,
        })),
        ("fix", Some(place), Some(gross)) => Some(Entry::Call(Call::Correct {
            place,
            gross,
            label,
        })),
        ("del", Some(place), None) => Some(Entry::Call(Call::Strike { place })),
        ("op", Some(place), Some(tare)) => Some(Entry::Call(Call::Open { place, tare })),
        ("set", None, None) => Some(Entry::Call(Call::Settle)),
        ("re", None, None) => Some(Entry::Call(Call::Reopen)),
        ("end", None, None) => Some(Entry::Close),
        _ => None,
    }
}

impl Block {
    pub(crate) fn new(heap: Global) -> Block {
        Block {
            start: None,
            entries: Vec::new(heap),
            wrong: None,
        }
    }

    // One line more; after the first that cannot be read, lines are passed over.
    pub(crate) fn add(&mut self, line: usize, text: &str) -> Result<(), AllocError> {
        if self.wrong.is_some() {
            return Ok(());
        }
        let (word, rest) = text.split_once(' ').unwrap_or((text, ""));
        if word == "lot" && self.start.is_none() {
            self.start = read_lot(rest);
            if self.start.is_none() {
                self.wrong = Some(line);
            }
        } else {
            match read_entry(text) {
                Some(entry) => self.entries.push(entry)?,
                None => self.wrong = Some(line),
            }
        }
        Ok(())
    }
}
