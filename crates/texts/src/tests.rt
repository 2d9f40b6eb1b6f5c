use categories::handbook::HandbookCategory;
use commands::command::Command;
use commands::parsing::parse;
use console::session::Session;
use console::telling::{finish, take_line};
use console::transcribing::transcribe;
use kinds::handbook::HandbookKind;
use lots::lot::Lot;
use packages::list::PackageList;
use packages::package::Package;
use packages::reading::Reading;
use packages::records::Random;
use sheet::call::Call;
use std::process::Abort;
use std::test::Fail;
use writing::commanding::write_command;
use writing::refusing::write_refusal;
use writing::reporting::write_open;
use writing::unwritten::Unwritten;

// The console prints these bytes of a text.
fn prints(rt: &(impl Abort + AllocGlobal), text: &[u8], expected: &[u8]) -> Result<(), Fail> {
    let mut places = [Random::holding(Reading::Empty); 48];
    let mut list = PackageList::new(&mut places);
    let said = transcribe(rt.alloc(), text, &mut list)?;
    assert_eq!(rt; said.as_slice(), expected);
    Ok(())
}

// The text as a third line is refused at a column with the number of a question.
fn unread(rt: &impl Abort, text: &[u8], column: usize, number: u32) -> Result<(), Fail> {
    let Err(fault) = parse(text, 3) else {
        return Err(Fail::new("the line is read"));
    };
    assert_eq!(rt; fault.line, 3);
    assert_eq!(rt; fault.column, column);
    assert_eq!(rt; fault.letter(), 'T');
    assert_eq!(rt; fault.number(), number);
    Ok(())
}

fn is_refused(answer: Result<usize, Unwritten>, letter: char, number: u32) -> bool {
    answer.is_err_and(|why| why.letter() == letter && why.number() == number)
}

fn all_sevens(bytes: &[u8]) -> bool {
    bytes.iter().all(|byte| *byte == 7)
}

// A line put twice: with too few bytes for what it prints, which is refused, and with enough. Answers how many it prints then.
fn put_twice(
    session: Session,
    list: &mut PackageList<Random>,
    text: &[u8],
    few: &mut [u8],
    out: &mut [u8],
) -> (Session, Option<usize>) {
    let (session, refused) = take_line(session, list, 1, text, few);
    let (session, printed) = take_line(session, list, 1, text, out);
    let written = match printed {
        Ok(n) if is_refused(refused, 'S', 23) => Some(n),
        _ => None,
    };
    (session, written)
}

// As the console lets a session go, in a function that only it can call.
fn let_go(session: Session) {
    match session {
        Session::Open(sheet) => {
            let _ = sheet.discard();
        }
        Session::Idle | Session::Closed => {}
    }
}

// The command is written as the line, and the line is read as the command.
fn reads_back(rt: &impl Abort, command: Command, line: &[u8]) -> Result<(), Fail> {
    let mut out = [7; 64];
    let Ok(n) = write_command(command, &mut out) else {
        return Err(Fail::new("the command is not written"));
    };
    assert!(rt; n <= 64);
    assert_eq!(rt; &out[0..n], line);
    assert!(rt; all_sevens(&out[n..64]));
    let Ok(Some(back)) = parse(line, 1) else {
        return Err(Fail::new("the line is not read"));
    };
    // two commands are never written alike
    let mut again = [7; 64];
    let Ok(m) = write_command(back, &mut again) else {
        return Err(Fail::new("the command is not written again"));
    };
    assert!(rt; m <= 64);
    assert_eq!(rt; &again[0..m], line);
    Ok(())
}

#[test]
fn the_listing_gives_its_report(rt: HostRuntime) -> Result<(), Fail> {
    prints(
        &rt,
        b"lot A mus 3 10 500 0\nwt 1 520\nwt 2 517\nop 1 20\nop 2 21\nset\nwt 2 518\nwt 3 519\nend\n",
        b"7 1 S 13\nsample 3\ntare 2 20\ntotal -4\nshort 2\nunreasonable 0\ndeviation 1527\nlimit 3793\nverdict within\n",
    )
}

#[test]
fn spacing_moves_only_the_place_of_a_refusal(rt: HostRuntime) -> Result<(), Fail> {
    prints(
        &rt,
        b"\n   \n  lot   A mus  3 10 500 0  \nwt 1 520\n\nwt  2  517\n op 1 20\nop 2 21 \n set\n   wt 2   518\nwt 3 519\n  \nend",
        b"10 4 S 13\nsample 3\ntare 2 20\ntotal -4\nshort 2\nunreasonable 0\ndeviation 1527\nlimit 3793\nverdict within\n",
    )
}

#[test]
fn a_word_that_is_no_command_is_refused(rt: HostRuntime) -> Result<(), Fail> {
    unread(&rt, b"weigh 1 520", 1, 2)?;
    unread(&rt, b"  WT 1 520", 3, 2)?;
    unread(&rt, b"-", 1, 2)?;
    unread(&rt, b" 12", 2, 2)?;
    unread(&rt, b"set\t", 1, 2)?;
    unread(&rt, b"end\r", 1, 2)?;
    unread(&rt, b"\0", 1, 2)?;
    unread(&rt, b"wt\xff 1 520", 1, 2)?;
    unread(&rt, &[b'w'; 300], 1, 2)
}

#[test]
fn a_wrong_count_of_words_is_refused(rt: HostRuntime) -> Result<(), Fail> {
    unread(&rt, b"lot A mus 3 10 500", 1, 3)?;
    unread(&rt, b"lot A mus 3 10 500 0 0", 1, 3)?;
    unread(&rt, b"  wt x", 3, 3)?;
    unread(&rt, b"fix 1 520 500 x", 1, 3)?;
    unread(&rt, b"del", 1, 3)?;
    unread(&rt, b"del 1 2", 1, 3)?;
    unread(&rt, b"op 1", 1, 3)?;
    unread(&rt, b"op 1 20 20", 1, 3)?;
    unread(&rt, b"set 1", 1, 3)?;
    unread(&rt, b"re re", 1, 3)?;
    unread(&rt, b" end -", 2, 3)
}

#[test]
fn a_word_that_is_no_number_is_refused(rt: HostRuntime) -> Result<(), Fail> {
    unread(&rt, b"wt 00 520", 4, 4)?;
    unread(&rt, b"wt 1 01", 6, 4)?;
    unread(&rt, b"wt 1 1234567890", 6, 4)?;
    unread(&rt, b"wt  1  5\t0", 8, 4)?;
    unread(&rt, b"wt 1 52\xb2", 6, 4)?;
    unread(&rt, b"fix 1 \0520", 7, 4)?;
    unread(&rt, b"op 1 -", 6, 4)?;
    unread(&rt, b"wt 1 520 -", 10, 4)?;
    unread(&rt, b"del +1", 5, 4)?;
    unread(&rt, b"op set 1.5", 4, 4)?;
    unread(&rt, b"lot A mus - 10 500 0", 11, 4)?;
    unread(&rt, b"lot A mus 3 10 -- 0", 16, 4)
}

#[test]
fn the_bytes_of_a_number_are_few(rt: HostRuntime) -> Result<(), Fail> {
    let mut line = [b'9'; 300];
    line[0] = b'd';
    line[1] = b'e';
    line[2] = b'l';
    line[3] = b' ';
    unread(&rt, &line, 5, 4)?;
    unread(&rt, &line[0..14], 5, 4)?;
    reads_back(&rt, Command::Call(Call::Strike { place: 0 }), b"del 0\n")?;
    reads_back(
        &rt,
        Command::Call(Call::Strike { place: 999_999_999 }),
        b"del 999999999\n",
    )
}

#[test]
fn an_unknown_category_or_kind_is_refused(rt: HostRuntime) -> Result<(), Fail> {
    unread(&rt, b"lot D mus 3 10 500 0", 5, 5)?;
    unread(&rt, b"lot a kg 3 10 - 0", 5, 5)?;
    unread(&rt, b"lot AB mus 3 10 500 0", 5, 5)?;
    unread(&rt, b"lot  A  kg 3 10 500 0", 9, 5)?;
    unread(&rt, b"lot A MUS 3 10 500 0", 7, 5)?;
    unread(&rt, b"lot D kg 3 10 500 x", 19, 4)
}

#[test]
fn a_command_with_no_open_sheet_is_refused(rt: HostRuntime) -> Result<(), Fail> {
    prints(&rt, b"", b"open\n")?;
    prints(&rt, b"wt 1 520\n\n  end", b"1 1 K 6\n3 3 K 6\nopen\n")?;
    prints(
        &rt,
        b" lot A mus 0 10 500 0\nset",
        b"1 2 P 8\n2 1 K 6\nopen\n",
    )
}

#[test]
fn a_second_lot_is_refused(rt: HostRuntime) -> Result<(), Fail> {
    prints(
        &rt,
        b"lot C mus 9 1 5 0\nlot C cnt 1 1 9 0\n lot C cnt 1 1 9 0\nlot\nwt 1 9\n",
        b"1 1 P 9\n3 2 K 7\n4 1 T 3\nopen\n",
    )
}

#[test]
fn a_closed_sheet_takes_no_command(rt: HostRuntime) -> Result<(), Fail> {
    prints(
        &rt,
        b"lot C cnt 1 1 9 0\nwt 1 9\nset\nend\nlot C cnt 1 1 9 0\n re\nend\nwt\n",
        b"sample 1\ntare 0 0\ntotal 0\nshort 0\nunreasonable 0\ndeviation 0\nlimit 0\nverdict plan\n5 1 K 7\n6 2 K 6\n7 1 K 6\n8 1 T 3\n",
    )
}

#[test]
fn a_text_may_have_65536_bytes(rt: HostRuntime) -> Result<(), Fail> {
    let mut text = (0..65_536)
        .map(|i| if i % 64 == 63 { b'\n' } else { b' ' })
        .collect::<Vec<u8>>(rt.alloc())?;
    prints(&rt, text.as_slice(), b"open\n")?;
    text.push(b' ')?;
    prints(&rt, text.as_slice(), b"1 1 T 1\n")?;
    let Err(fault) = parse(text.as_slice(), 3) else {
        return Err(Fail::new("the text is read"));
    };
    assert_eq!(rt; fault.line, 1);
    assert_eq!(rt; fault.column, 1);
    assert_eq!(rt; fault.letter(), 'T');
    assert_eq!(rt; fault.number(), 1);
    Ok(())
}

#[test]
fn a_short_output_changes_nothing(rt: HostRuntime) {
    let mut places = [Random::holding(Reading::Empty); 1];
    let mut list = PackageList::new(&mut places);
    let mut few = [7; 255];
    let mut out = [7; 256];
    let session = Session::Idle;
    let (session, started) = put_twice(
        session,
        &mut list,
        b"lot C cnt 1 1 9 0",
        &mut few,
        &mut out,
    );
    let (session, weighed) = put_twice(session, &mut list, b"wt 1 9", &mut few, &mut out);
    let (session, settled) = put_twice(session, &mut list, b"set", &mut few, &mut out);
    let (session, closed) = put_twice(session, &mut list, b"end", &mut few, &mut out);
    let refused = match finish(session, &mut few) {
        Ok(_) => false,
        Err((session, why)) => {
            let_go(session);
            is_refused(Err(why), 'S', 23)
        }
    };
    assert!(rt; refused);
    assert!(rt; all_sevens(&few));
    assert_eq!(rt; started, Some(0));
    assert_eq!(rt; weighed, Some(0));
    assert_eq!(rt; settled, Some(0));
    assert_eq!(rt; closed, Some(82));
    assert_eq!(rt;
        &out[0..82],
        b"sample 1\ntare 0 0\ntotal 0\nshort 0\nunreasonable 0\ndeviation 0\nlimit 0\nverdict plan\n".as_slice()
    );
    assert!(rt; all_sevens(&out[82..256]));
}

#[test]
fn a_short_line_is_not_written(rt: HostRuntime) {
    let small = Command::Call(Call::Strike { place: 999_999_999 });
    let large = Command::Call(Call::Open {
        place: 1,
        tare: 1_000_000_000,
    });
    let mut few = [7; 63];
    assert!(rt; is_refused(write_command(small, &mut few), 'S', 23));
    assert!(rt; is_refused(write_command(large, &mut few), 'T', 4));
    assert!(rt; is_refused(write_refusal(7, 1, b'S', 13, &mut few), 'S', 23));
    assert!(rt; is_refused(write_open(&mut few), 'S', 23));
    assert!(rt; all_sevens(&few));
}

#[test]
fn a_written_command_reads_back(rt: HostRuntime) -> Result<(), Fail> {
    let lot = Lot {
        size: 172,
        division: 10,
        label: Some(1_000),
        allowance: 25,
    };
    reads_back(
        &rt,
        Command::Lot {
            category: HandbookCategory::A,
            kind: HandbookKind::Mus,
            lot,
        },
        b"lot A mus 172 10 1000 25\n",
    )?;
    reads_back(
        &rt,
        Command::Lot {
            category: HandbookCategory::B,
            kind: HandbookKind::Msi,
            lot: Lot { label: None, ..lot },
        },
        b"lot B msi 172 10 - 25\n",
    )?;
    reads_back(
        &rt,
        Command::Call(Call::Weigh {
            place: 1,
            gross: 520,
            label: None,
        }),
        b"wt 1 520\n",
    )?;
    reads_back(
        &rt,
        Command::Call(Call::Correct {
            place: 12,
            gross: 0,
            label: Some(1_160),
        }),
        b"fix 12 0 1160\n",
    )?;
    reads_back(
        &rt,
        Command::Call(Call::Open {
            place: 999_999_999,
            tare: 20,
        }),
        b"op 999999999 20\n",
    )?;
    reads_back(&rt, Command::Call(Call::Settle), b"set\n")?;
    reads_back(&rt, Command::Call(Call::Reopen), b"re\n")?;
    reads_back(&rt, Command::End, b"end\n")
}
