use crate::reading::Block;
use console::denial::Denial;
use findings::answer::Answer;
use findings::asked::Asked;
use findings::closed::{Findings, HandbookStart};
use findings::side_by_side::SideBySide;
use history::contest::contest;
use history::entry::Entry;
use history::running::turn;
use packages::list::PackageList;
use packages::package::Package;
use packages::reading::Reading;
use packages::records::Random;
use sheet::refusal::Refusal;
use sheet::sheet::Sheet;

// An entry and its answer. A place 0 is not named.
fn print_answer(rt: &impl Print, entry: Entry, refusal: Option<Refusal>) -> anyhow::Result<()> {
    let asked = Asked::from(entry);
    let named = Asked {
        place: asked.place.filter(|place| *place != 0),
        ..asked
    };
    let answer = Answer(refusal.map(Denial::from));
    Ok(println!(rt; "{named}: {answer}")?)
}

// Plays the calls one by one, and prints each with its answer.
fn play(
    rt: &impl Print,
    start: HandbookStart,
    list: &mut PackageList<Random>,
    entries: &[Entry],
) -> anyhow::Result<()> {
    let mut sheet = match Sheet::start(start.category, start.kind, start.lot, list) {
        Ok(sheet) => sheet,
        Err(refusal) => {
            let answer = Answer(Some(refusal.into()));
            return Ok(println!(rt; "{answer}")?);
        }
    };
    let mut printed = Ok(());
    for entry in entries {
        match turn(sheet, list, *entry) {
            Ok(_) => return print_answer(rt, *entry, None),
            Err((back, refusal)) => {
                sheet = back;
                printed = print_answer(rt, *entry, refusal);
                if printed.is_err() {
                    break;
                }
            }
        }
    }
    let _ = sheet.discard();
    printed
}

// Plays both sheets, then starts and runs both again over the same lists for their records.
pub(crate) fn work(rt: &impl Print, first: &Block, second: &Block) -> anyhow::Result<()> {
    if let Some(line) = first.wrong.or(second.wrong) {
        println!(rt; "line {line} cannot be read")?;
        return Ok(());
    }
    let (Some(start), Some(begin)) = (first.start, second.start) else {
        println!(rt; "two sheets are wanted, each with a lot line, and a blank line between them")?;
        return Ok(());
    };
    let (entries, more) = (first.entries.as_slice(), second.entries.as_slice());
    let mut places = [Random::holding(Reading::Empty); 48];
    let mut others = [Random::holding(Reading::Empty); 48];
    let mut list = PackageList::new(&mut places);
    let mut other = PackageList::new(&mut others);
    println!(rt; "first sheet")?;
    play(rt, start, &mut list, entries)?;
    println!(rt; "second sheet")?;
    play(rt, begin, &mut other, more)?;
    let (one, two) = contest(start, begin, &mut list, &mut other, entries, more);
    let one = Findings::of(start, one, &list);
    let two = Findings::of(begin, two, &other);
    let (Some(one), Some(two)) = (one, two) else {
        println!(rt; "nothing follows: a sheet was not closed")?;
        return Ok(());
    };
    let both = SideBySide::of(one, two);
    Ok(println!(rt; "{both}")?)
}
