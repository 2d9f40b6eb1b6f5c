ghost use Rattle.std.specs.Prelude.{◌≡◌, Some};
ghost use Rattle.findings.specs.Calls.{IsAskedBy, IsEntered, asked_text};

use commands::command::Command;
use history::entry::Entry;
use sheet::call::Call;
use std::fmt;

// What is asked of a sheet, as it is named before its answer: by its verb, and a call at a place by the place.
#[derive(Clone, Copy)]
pub struct Asked {
    pub verb: &'static str,
    pub place: Option<u32>,
}

impl From<Command> for Asked {
    ghost from_gives = { IsAskedBy };

    fn from(command: Command) -> Asked {
        let (verb, place) = match command {
            Command::Lot { .. } => ("lot", None),
            Command::Call(Call::Weigh { place, .. }) => ("wt", Some(place)),
            Command::Call(Call::Correct { place, .. }) => ("fix", Some(place)),
            Command::Call(Call::Strike { place }) => ("del", Some(place)),
            Command::Call(Call::Open { place, .. }) => ("op", Some(place)),
            Command::Call(Call::Settle) => ("set", None),
            Command::Call(Call::Reopen) => ("re", None),
            Command::End => ("end", None),
        };
        Asked { verb, place }
    }
}

impl From<Entry> for Asked {
    ghost from_gives = { IsEntered };

    fn from(entry: Entry) -> Asked {
        Asked::from(match entry {
            Entry::Call(call) => Command::Call(call),
            Entry::Close => Command::End,
        })
    }
}

impl fmt::Display for Asked {
    ghost output = { λ asked. Some (asked_text asked.verb.now asked.place) };

    fn fmt<W: fmt::Write>(&self, f: &mut fmt::Formatter<W>) -> fmt::Result {
        let verb = self.verb;
        match self.place {
            Some(place) => write!(f, "{verb} {place}"),
            None => write!(f, "{verb}"),
        }
    }
}
