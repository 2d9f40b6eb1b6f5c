use categories::category::Category;
use categories::handbook::HandbookCategory;
use decision::outcome::Verdict;
use findings::closed::{Findings, HandbookStart};
use findings::reporting::{CountsLine, ErrorsLine, TareLine, VerdictLines};
use history::contest::start_and_run;
use history::ending::{Ending, Start};
use history::entry::Entry;
use history::running::turn;
use kinds::handbook::HandbookKind;
use lots::lot::Lot;
use packages::list::PackageList;
use packages::package::Package;
use packages::reading::Reading;
use packages::records::{Random, Standard};
use sheet::call::Call;
use sheet::record::Record;
use sheet::refusal::Refusal;
use sheet::sheet::Sheet;
use std::array;
use std::process::Abort;
use std::test::Fail;

const SETTLE: Entry = Entry::Call(Call::Settle);

const REOPEN: Entry = Entry::Call(Call::Reopen);

fn empty<P: Package, const N: usize>() -> [P; N] {
    [P::holding(Reading::Empty); N]
}

fn weigh(place: u32, gross: u32) -> Entry {
    Entry::Call(Call::Weigh {
        place,
        gross,
        label: None,
    })
}

fn weigh_labeled(place: u32, gross: u32, label: u32) -> Entry {
    Entry::Call(Call::Weigh {
        place,
        gross,
        label: Some(label),
    })
}

fn strike(place: u32) -> Entry {
    Entry::Call(Call::Strike { place })
}

fn open(place: u32, tare: u32) -> Entry {
    Entry::Call(Call::Open { place, tare })
}

fn begin(
    category: HandbookCategory,
    kind: HandbookKind,
    size: u32,
    division: u32,
    label: Option<u32>,
) -> HandbookStart {
    Start {
        category,
        kind,
        lot: Lot {
            size,
            division,
            label,
            allowance: 0,
        },
    }
}

// A lot of so many packages by weight, each labeled 500.
fn of_500(size: u32) -> HandbookStart {
    begin(HandbookCategory::A, HandbookKind::Mus, size, 10, Some(500))
}

fn readings<P: Package>(list: &PackageList<P>) -> [Reading; 12] {
    array::from_fn(|i| list.at(i))
}

// The first refusal of a run, after how many entries it came, and whether the list reads as before it.
#[derive(Clone, Copy)]
struct Told {
    refusal: Refusal,
    after: usize,
    kept: bool,
}

fn first_refusal<P: Package>(
    start: HandbookStart,
    records: &mut [P],
    entries: &[Entry],
) -> Option<Told> {
    let mut list = PackageList::new(records);
    let before = readings(&list);
    let mut sheet = match Sheet::start(start.category, start.kind, start.lot, &mut list) {
        Ok(sheet) => sheet,
        Err(refusal) => {
            let kept = before == readings(&list);
            return Some(Told {
                refusal,
                after: 0,
                kept,
            });
        }
    };
    for (after, entry) in entries.iter().enumerate() {
        let before = readings(&list);
        match turn(sheet, &mut list, *entry) {
            Ok(_) => return None,
            Err((back, answer)) => {
                sheet = back;
                if let Some(refusal) = answer {
                    let _ = sheet.discard();
                    let kept = before == readings(&list);
                    return Some(Told {
                        refusal,
                        after,
                        kept,
                    });
                }
            }
        }
    }
    let _ = sheet.discard();
    None
}

// The refusal of the last entry, where those before it are taken and the list reads as before.
fn last_refusal<P: Package>(
    rt: &impl Abort,
    start: HandbookStart,
    records: &mut [P],
    entries: &[Entry],
) -> Result<Refusal, Fail> {
    let told = first_refusal(start, records, entries).ok_or("nothing is refused")?;
    assert_eq!(rt; told.after, entries.len().saturating_sub(1));
    assert!(rt; told.kept);
    Ok(told.refusal)
}

// The number of the last refusal on a sheet for three packages.
fn number_of(rt: &impl Abort, entries: &[Entry]) -> Result<u32, Fail> {
    let mut records: [Standard; 3] = empty();
    let refusal = last_refusal(rt, of_500(3), &mut records, entries)?;
    assert_eq!(rt; refusal.letter(), 'S');
    Ok(refusal.number())
}

// The number of the refusal of an entry once the tare is settled from the first two of three packages.
fn number_settled(rt: &impl Abort, entry: Entry) -> Result<u32, Fail> {
    number_of(
        rt,
        &[
            weigh(1, 520),
            weigh(2, 517),
            open(1, 20),
            open(2, 21),
            SETTLE,
            entry,
        ],
    )
}

// The record of a sheet that is closed.
fn record_of<P: Package>(
    start: HandbookStart,
    records: &mut [P],
    entries: &[Entry],
) -> Result<Record, Fail> {
    let mut list = PackageList::new(records);
    match start_and_run(start, &mut list, entries) {
        Ending::Closed(record) => Ok(record),
        Ending::Open(sheet) => {
            let _ = sheet.discard();
            Err(Fail::new("the sheet is open"))
        }
        Ending::Refused(_) => Err(Fail::new("the start is refused")),
    }
}

#[test]
fn a_lot_of_none_is_refused(rt: HostRuntime) -> Result<(), Fail> {
    let mut records: [Standard; 3] = empty();
    let refusal = last_refusal(&rt, of_500(0), &mut records, &[])?;
    assert_eq!(rt; refusal.number(), 8);
    assert_eq!(rt; refusal.letter(), 'P');
    Ok(())
}

#[test]
fn a_count_in_a_plant_is_refused(rt: HostRuntime) -> Result<(), Fail> {
    let mut records: [Standard; 12] = empty();
    let start = begin(HandbookCategory::B, HandbookKind::Cnt, 10, 1, Some(60));
    let refusal = last_refusal(&rt, start, &mut records, &[])?;
    assert_eq!(rt; refusal.number(), 9);
    assert_eq!(rt; refusal.letter(), 'P');
    Ok(())
}

#[test]
fn a_short_list_is_refused(rt: HostRuntime) -> Result<(), Fail> {
    let used = Standard {
        gross: Some(520),
        tare: Some(20),
    };
    let mut records = [used; 2];
    let refusal = last_refusal(&rt, of_500(3), &mut records, &[])?;
    assert_eq!(rt; refusal.number(), 10);
    assert_eq!(rt; refusal.letter(), 'S');
    Ok(())
}

#[test]
fn a_place_outside_the_sample_is_refused(rt: HostRuntime) -> Result<(), Fail> {
    assert_eq!(rt; number_of(&rt, &[weigh(0, 520)])?, 11);
    assert_eq!(rt; number_of(&rt, &[weigh(4, 520)])?, 11);
    assert_eq!(rt; number_of(&rt, &[weigh(3, 520), open(4, 20)])?, 11);
    Ok(())
}

#[test]
fn a_label_on_a_standard_sheet_is_refused(rt: HostRuntime) -> Result<(), Fail> {
    assert_eq!(rt;
        number_of(&rt, &[weigh(1, 520), weigh_labeled(2, 517, 500)])?,
        12
    );
    assert_eq!(rt; number_of(&rt, &[weigh(1, 520), weigh(2, 1_000_000)])?, 12);
    Ok(())
}

#[test]
fn a_frozen_place_is_refused(rt: HostRuntime) -> Result<(), Fail> {
    assert_eq!(rt; number_settled(&rt, weigh(2, 518))?, 13);
    assert_eq!(rt; number_settled(&rt, strike(1))?, 13);
    assert_eq!(rt; number_settled(&rt, open(1, 22))?, 13);
    Ok(())
}

#[test]
fn an_unfit_place_is_refused(rt: HostRuntime) -> Result<(), Fail> {
    assert_eq!(rt; number_of(&rt, &[weigh(1, 520), weigh(1, 521)])?, 14);
    assert_eq!(rt; number_of(&rt, &[weigh(1, 520), strike(2)])?, 14);
    assert_eq!(rt;
        number_of(&rt, &[weigh(1, 520), strike(1), open(1, 20)])?,
        14
    );
    Ok(())
}

#[test]
fn a_tare_above_gross_is_refused(rt: HostRuntime) -> Result<(), Fail> {
    assert_eq!(rt;
        number_of(&rt, &[weigh(1, 520), open(1, 520), open(1, 521)])?,
        15
    );
    Ok(())
}

#[test]
fn settling_twice_is_refused(rt: HostRuntime) -> Result<(), Fail> {
    assert_eq!(rt; number_settled(&rt, SETTLE)?, 16);
    Ok(())
}

#[test]
fn settling_before_opening_is_refused(rt: HostRuntime) -> Result<(), Fail> {
    assert_eq!(rt;
        number_of(&rt, &[weigh(1, 520), weigh(2, 517), open(1, 20), SETTLE])?,
        17
    );
    Ok(())
}

#[test]
fn a_tare_of_too_few_is_refused(rt: HostRuntime) -> Result<(), Fail> {
    let mut records: [Standard; 12] = empty();
    let entries = [
        weigh(1, 520),
        weigh(2, 521),
        open(1, 20),
        open(2, 21),
        SETTLE,
    ];
    let refusal = last_refusal(&rt, of_500(12), &mut records, &entries)?;
    assert_eq!(rt; refusal.number(), 19);
    assert_eq!(rt; refusal.total(), Some(12));
    Ok(())
}

#[test]
fn an_unsettled_sheet_is_neither_reopened_nor_closed(rt: HostRuntime) -> Result<(), Fail> {
    assert_eq!(rt; number_of(&rt, &[weigh(1, 520), REOPEN])?, 20);
    assert_eq!(rt; number_of(&rt, &[weigh(1, 520), Entry::Close])?, 20);
    Ok(())
}

#[test]
fn closing_before_weighing_is_refused(rt: HostRuntime) -> Result<(), Fail> {
    assert_eq!(rt; number_settled(&rt, Entry::Close)?, 21);
    Ok(())
}

#[test]
fn an_error_out_of_range_is_refused(rt: HostRuntime) -> Result<(), Fail> {
    let entries = [
        weigh(1, 520),
        weigh(2, 517),
        open(1, 20),
        open(2, 21),
        SETTLE,
        weigh(3, 9_000),
        Entry::Close,
    ];
    assert_eq!(rt; number_of(&rt, &entries)?, 22);
    Ok(())
}

#[test]
fn three_packages_are_within(rt: HostRuntime) -> Result<(), Fail> {
    let mut records: [Standard; 3] = empty();
    let entries = [
        weigh(1, 520),
        weigh(2, 517),
        open(1, 20),
        open(2, 21),
        SETTLE,
        weigh(2, 518),
        weigh(3, 519),
        Entry::Close,
    ];
    let record = record_of(of_500(3), &mut records, &entries)?;
    assert_eq!(rt; record.tare_total(), 2);
    assert_eq!(rt; record.average_tare(), 20);
    assert_eq!(rt; record.rule().factor, 2_484);
    let decision = record.decision();
    assert_eq!(rt; decision.figures.sample, 3);
    assert_eq!(rt; decision.figures.total, -4);
    assert_eq!(rt; decision.figures.short, 2);
    assert_eq!(rt; decision.figures.unreasonable, 0);
    assert_eq!(rt; decision.deviation, 1_527);
    assert_eq!(rt; decision.limit, 3_793);
    assert_eq!(rt; decision.verdict, Verdict::Within);
    Ok(())
}

#[test]
fn a_closed_sheet_is_found(rt: HostRuntime) -> Result<(), Fail> {
    let mut records: [Standard; 3] = empty();
    let mut list = PackageList::new(&mut records);
    let entries = [
        weigh(1, 520),
        weigh(2, 517),
        open(1, 20),
        open(2, 21),
        SETTLE,
        weigh(3, 519),
        Entry::Close,
    ];
    let ending = start_and_run(of_500(3), &mut list, &entries);
    let found = Findings::of(of_500(3), ending, &list).ok_or("nothing is found")?;
    assert_eq!(rt; found.labels.as_slice(), [500, 500, 500].as_slice());
    assert_eq!(rt; found.errors.as_slice(), [0, -3, -1].as_slice());
    assert_eq!(rt; found.mavs.as_slice(), [(280, 1); 3].as_slice());
    assert_eq!(rt;
        found.to_string(rt.alloc())?.as_str(),
        "sample 3, tare 2 20\ntotal -4, short 2, unreasonable 0, counted 0\ndeviation 1527, limit 3793\nverdict within: passes\nerrors 0 -3 -1"
    );
    Ok(())
}

// Each part alone, and the errors line with more errors than a sample has.
#[test]
fn each_part_of_a_report_is_said(rt: HostRuntime) -> Result<(), Fail> {
    let mut records: [Standard; 3] = empty();
    let entries = [
        weigh(1, 520),
        weigh(2, 517),
        open(1, 20),
        open(2, 21),
        SETTLE,
        weigh(3, 519),
        Entry::Close,
    ];
    let record = record_of(of_500(3), &mut records, &entries)?;
    let tare = TareLine(&record).to_string(rt.alloc())?;
    let counts = CountsLine(record.decision()).to_string(rt.alloc())?;
    let verdict = VerdictLines(record.decision()).to_string(rt.alloc())?;
    let errors = ErrorsLine(&[-1; 49]).to_string(rt.alloc())?;
    let longer = " -1".repeat(rt.alloc(), 49)?;
    assert_eq!(rt; tare.as_str(), "sample 3, tare 2 20");
    assert_eq!(rt;
        counts.as_str(),
        "total -4, short 2, unreasonable 0, counted 0"
    );
    assert_eq!(rt;
        verdict.as_str(),
        "deviation 1527, limit 3793\nverdict within: passes"
    );
    assert_eq!(rt;
        errors.as_str().strip_prefix("errors"),
        Some(longer.as_str())
    );
    Ok(())
}

#[test]
fn a_random_lot_is_short_on_average(rt: HostRuntime) -> Result<(), Fail> {
    let mut records: [Random; 12] = empty();
    let entries = [
        weigh_labeled(1, 1_852, 1_850),
        weigh_labeled(2, 1_223, 1_210),
        weigh_labeled(3, 1_572, 1_560),
        weigh_labeled(4, 1_986, 1_980),
        weigh_labeled(5, 1_067, 1_070),
        weigh_labeled(6, 1_554, 1_550),
        weigh_labeled(7, 1_038, 1_020),
        weigh_labeled(8, 1_435, 1_440),
        weigh_labeled(9, 1_334, 1_330),
        weigh_labeled(10, 2_030, 2_030),
        weigh_labeled(11, 1_736, 1_730),
        weigh_labeled(12, 1_169, 1_160),
        open(1, 20),
        open(2, 21),
        SETTLE,
        Entry::Close,
    ];
    let start = begin(HandbookCategory::A, HandbookKind::Mus, 23, 10, None);
    let record = record_of(start, &mut records, &entries)?;
    assert_eq!(rt; record.tare_total(), 2);
    assert_eq!(rt; record.average_tare(), 20);
    let decision = record.decision();
    assert_eq!(rt; decision.figures.total, -174);
    assert_eq!(rt; decision.figures.short, 12);
    assert_eq!(rt; decision.deviation, 6_721);
    assert_eq!(rt; decision.limit, 4_267);
    assert_eq!(rt; decision.verdict, Verdict::Average);
    Ok(())
}

#[test]
fn a_volume_has_no_tare(rt: HostRuntime) -> Result<(), Fail> {
    let mut records: [Standard; 2] = empty();
    let entries = [weigh(1, 1_000), weigh(2, 990), SETTLE, Entry::Close];
    let start = begin(HandbookCategory::A, HandbookKind::Lsi, 2, 1, Some(1_000));
    let record = record_of(start, &mut records, &entries)?;
    assert_eq!(rt; record.tare_total(), 0);
    assert_eq!(rt; record.average_tare(), 0);
    assert_eq!(rt; record.decision().figures.total, -10);
    Ok(())
}

#[test]
fn a_low_count_is_decided_by_the_plan(rt: HostRuntime) -> Result<(), Fail> {
    let mut records: [Standard; 12] = empty();
    let entries = [
        weigh(1, 50),
        weigh(2, 50),
        weigh(3, 50),
        weigh(4, 50),
        weigh(5, 47),
        weigh(6, 50),
        weigh(7, 50),
        weigh(8, 50),
        weigh(9, 50),
        weigh(10, 50),
        weigh(11, 50),
        weigh(12, 50),
        SETTLE,
        Entry::Close,
    ];
    let start = begin(HandbookCategory::C, HandbookKind::Cnt, 160, 1, Some(50));
    let record = record_of(start, &mut records, &entries)?;
    let decision = record.decision();
    assert_eq!(rt; decision.figures.short, 1);
    assert_eq!(rt; decision.figures.unreasonable, 1);
    assert_eq!(rt; decision.counted, 1);
    assert_eq!(rt; decision.verdict, Verdict::Plan);
    Ok(())
}

#[test]
fn twelve_packages_are_over(rt: HostRuntime) -> Result<(), Fail> {
    let mut records: [Standard; 12] = empty();
    let entries = [
        weigh(1, 1_052),
        weigh(2, 1_026),
        weigh(3, 1_022),
        weigh(4, 1_010),
        weigh(5, 1_011),
        weigh(6, 1_012),
        weigh(7, 1_026),
        weigh(8, 1_017),
        weigh(9, 1_018),
        weigh(10, 1_015),
        weigh(11, 1_014),
        weigh(12, 1_020),
        open(1, 15),
        open(2, 13),
        SETTLE,
        Entry::Close,
    ];
    let start = begin(HandbookCategory::A, HandbookKind::Mus, 172, 10, Some(1_000));
    let record = record_of(start, &mut records, &entries)?;
    assert_eq!(rt; record.tare_total(), 2);
    assert_eq!(rt; record.average_tare(), 14);
    let decision = record.decision();
    assert_eq!(rt; decision.figures.total, 75);
    assert_eq!(rt; decision.verdict, Verdict::Over);
    Ok(())
}
