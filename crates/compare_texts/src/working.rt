use crate::playing::{Played, play};
use findings::closed::Findings;
use findings::side_by_side::SideBySide;
use history::contest::contest;
use packages::list::PackageList;
use packages::package::Package;
use packages::reading::Reading;
use packages::records::Random;

// Starts and runs both sheets again over the same lists, for their records.
fn run_again(
    rt: &impl Print,
    first: &Played,
    second: &Played,
    list: &mut PackageList<Random>,
    other: &mut PackageList<Random>,
) -> anyhow::Result<()> {
    let (Some(start), Some(begin)) = (first.start, second.start) else {
        println!(rt; "nothing follows: a sheet was not started")?;
        return Ok(());
    };
    let (entries, more) = (first.entries.as_slice(), second.entries.as_slice());
    let (one, two) = contest(start, begin, list, other, entries, more);
    let one = Findings::of(start, one, list);
    let two = Findings::of(begin, two, other);
    let (Some(one), Some(two)) = (one, two) else {
        println!(rt; "nothing follows: a sheet was not closed")?;
        return Ok(());
    };
    let both = SideBySide::of(one, two);
    Ok(println!(rt; "{both}")?)
}

// Plays both texts, and says what the rule says of them.
pub(crate) fn work(
    rt: &(impl Print + AllocGlobal),
    first: &[u8],
    second: &[u8],
) -> anyhow::Result<()> {
    if first.len() > 65_536 || second.len() > 65_536 {
        println!(rt; "refused T 1")?;
        return Ok(());
    }
    let mut places = [Random::holding(Reading::Empty); 48];
    let mut others = [Random::holding(Reading::Empty); 48];
    let mut list = PackageList::new(&mut places);
    let mut other = PackageList::new(&mut others);
    println!(rt; "first sheet")?;
    let one = play(rt, first, &mut list)?;
    println!(rt; "second sheet")?;
    let two = play(rt, second, &mut other)?;
    run_again(rt, &one, &two, &mut list, &mut other)
}
