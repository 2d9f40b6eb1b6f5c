use commands::command::Command;
use commands::fault::Fault;
use commands::parsing::parse;
use console::denial::Denial;
use console::handling::handle;
use console::session::Session;
use findings::answer::Answer;
use findings::asked::Asked;
use findings::closed::HandbookStart;
use history::ending::Start;
use history::entry::Entry;
use packages::list::PackageList;
use packages::records::Random;
use std::alloc::{AllocError, Global};

// An accepted lot and what was asked of its sheet up to its closing.
#[derive(Drop)]
pub struct Played {
    pub start: Option<HandbookStart>,
    pub entries: Vec<Entry>,
}

impl Played {
    fn new(heap: Global) -> Played {
        Played {
            start: None,
            entries: Vec::new(heap),
        }
    }

    // A command that started a sheet, or was put to one that is open.
    fn note(&mut self, command: Command, open: bool, accepted: bool) -> Result<(), AllocError> {
        match command {
            Command::Lot {
                category,
                kind,
                lot,
            } if accepted => {
                self.start = Some(Start {
                    category,
                    kind,
                    lot,
                });
            }
            Command::Call(call) if open => self.entries.push(Entry::Call(call))?,
            Command::End if open => self.entries.push(Entry::Close)?,
            _ => {}
        }
        Ok(())
    }
}

// A line that is not read.
fn print_fault(rt: &impl Print, fault: Fault) -> anyhow::Result<()> {
    let line = fault.line;
    let letter = fault.letter();
    let number = fault.number();
    Ok(println!(rt; "line {line}: refused {letter} {number}")?)
}

fn print_answer(rt: &impl Print, command: Command, denial: Option<Denial>) -> anyhow::Result<()> {
    let asked = Asked::from(command);
    let answer = Answer(denial);
    Ok(println!(rt; "{asked}: {answer}")?)
}

// One line: it is handled as at the console, noted, and printed with its answer.
fn play_line(
    rt: &impl Print,
    session: Session,
    list: &mut PackageList<Random>,
    played: &mut Played,
    line: usize,
    text: &[u8],
) -> (Session, anyhow::Result<()>) {
    let command = match parse(text, line) {
        Ok(Some(command)) => command,
        Ok(None) => return (session, Ok(())),
        Err(fault) => return (session, print_fault(rt, fault)),
    };
    let open = matches!(&session, Session::Open(_));
    let (session, reply) = handle(session, list, command);
    let noted = played.note(command, open, reply.is_ok());
    let printed = print_answer(rt, command, reply.err());
    (session, noted.map_err(anyhow::Error::from).and(printed))
}

// Plays a text line by line, up to the end or to what cannot be printed.
pub(crate) fn play(
    rt: &(impl Print + AllocGlobal),
    text: &[u8],
    list: &mut PackageList<Random>,
) -> anyhow::Result<Played> {
    let mut played = Played::new(rt.alloc());
    let mut session = Session::Idle;
    let mut done = Ok(());
    for (i, line) in text.split(|byte| *byte == b'\n').enumerate() {
        let number = i.saturating_add(1);
        (session, done) = play_line(rt, session, list, &mut played, number, line);
        if done.is_err() {
            break;
        }
    }
    match session {
        Session::Open(sheet) => {
            let _ = sheet.discard();
        }
        Session::Idle | Session::Closed => {}
    }
    done?;
    Ok(played)
}
