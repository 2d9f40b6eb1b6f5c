ghost use Rattle.std.specs.Prelude.{◌≡◌};
ghost use Rattle.words.specs.declared.word.Verb.TheVariants as verb;
ghost use Rattle.commands.specs.Parsing.{read_line, weighed_by, alone_by, reading};

use crate::command::Command;
use crate::fault::{Fault, Why};
use crate::line::Line;
use lots::lot::Lot;
use sheet::call::Call;
use words::reader::Reader;
use words::word::{Verb, Word};

// The words of every command are taken by `let .. else`, a fixed form: each says itself where its line stops.

// The numbers of a lot are asked before its names.
fn lot(mut line: Line<'_>) -> Result<Command, Fault>
    ensures { result ≡ read_line line.entry verb.Lot }
{
    let Some(category) = line.next() else {
        return Err(line.short());
    };
    let Some(kind) = line.next() else {
        return Err(line.short());
    };
    let Some(size) = line.next() else {
        return Err(line.short());
    };
    let Some(division) = line.next() else {
        return Err(line.short());
    };
    let Some(label) = line.next() else {
        return Err(line.short());
    };
    let Some(allowance) = line.next() else {
        return Err(line.short());
    };
    let None = line.next() else {
        return Err(line.short());
    };
    let lot = Lot {
        size: line.number(size)?,
        division: line.number(division)?,
        label: line.label(label)?,
        allowance: line.number(allowance)?,
    };
    Ok(Command::Lot {
        category: line.category(category)?,
        kind: line.kind(kind)?,
        lot,
    })
}

fn strike(mut line: Line<'_>) -> Result<Command, Fault>
    ensures { result ≡ read_line line.entry verb.Del }
{
    let Some(place) = line.next() else {
        return Err(line.short());
    };
    let None = line.next() else {
        return Err(line.short());
    };
    Ok(Command::Call(Call::Strike {
        place: line.number(place)?,
    }))
}

fn tare(mut line: Line<'_>) -> Result<Command, Fault>
    ensures { result ≡ read_line line.entry verb.Op }
{
    let Some(place) = line.next() else {
        return Err(line.short());
    };
    let Some(tare) = line.next() else {
        return Err(line.short());
    };
    let None = line.next() else {
        return Err(line.short());
    };
    Ok(Command::Call(Call::Open {
        place: line.number(place)?,
        tare: line.number(tare)?,
    }))
}

// Place, gross weight and label of a weighing or a correcting.
fn weight(mut line: Line<'_>) -> Result<(u32, u32, Option<u32>), Fault>
    ensures { result ≡ weighed_by line.entry }
{
    let Some(place) = line.next() else {
        return Err(line.short());
    };
    let Some(gross) = line.next() else {
        return Err(line.short());
    };
    let label = line.next();
    let None = line.next() else {
        return Err(line.short());
    };
    let place = line.number(place)?;
    let gross = line.number(gross)?;
    // a match: with `map` and `transpose` the proof does not close
    let label = match label {
        Some(label) => Some(line.number(label)?),
        None => None,
    };
    Ok((place, gross, label))
}

// A command that stands alone.
fn alone(mut line: Line<'_>, command: Command) -> Result<Command, Fault>
    ensures { result ≡ alone_by line.entry command }
{
    let None = line.next() else {
        return Err(line.short());
    };
    Ok(command)
}

fn by_verb(line: Line<'_>, verb: Verb) -> Result<Command, Fault>
    ensures { result ≡ read_line line.entry verb }
{
    match verb {
        Verb::Lot => lot(line),
        Verb::Wt => {
            let (place, gross, label) = weight(line)?;
            Ok(Command::Call(Call::Weigh {
                place,
                gross,
                label,
            }))
        }
        Verb::Fix => {
            let (place, gross, label) = weight(line)?;
            Ok(Command::Call(Call::Correct {
                place,
                gross,
                label,
            }))
        }
        Verb::Del => strike(line),
        Verb::Op => tare(line),
        Verb::Set => alone(line, Command::Call(Call::Settle)),
        Verb::Re => alone(line, Command::Call(Call::Reopen)),
        Verb::End => alone(line, Command::End),
    }
}

// What a line asks for, with the number that the line has; none where it is blank.
pub fn parse(text: &[u8], line: usize) -> Result<Option<Command>, Fault>
    ensures { result ≡ reading line text.now }
{
    if text.len() > 65_536 {
        return Err(Fault {
            line: 1,
            column: 1,
            why: Why::TooLong,
        });
    }
    let mut reader = Reader::new(text, line);
    let Some(first) = reader.next_word() else {
        return Ok(None);
    };
    let line = Line { reader, first };
    let Word::Command(_, verb) = Word::from(first.bytes) else {
        return Err(line.fault(first, Why::NotCommand));
    };
    by_verb(line, verb).map(Some)
}
