ghost use Rattle.std.specs.Prelude.{◌≡◌};
ghost use Rattle.std.specs.Iterator.{item_count};
ghost use Rattle.commands.specs.Behind.{placed, behind, NextWord};
ghost use Rattle.commands.specs.Faults.{fault};
ghost use Rattle.commands.specs.Fields.{number_in, label_in, category_in, kind_in};
ghost use Rattle.commands.specs.declared.fault.Why.TheVariants as why;

use crate::fault::{Fault, Why};
use crate::line::Line;
use categories::handbook::HandbookCategory;
use kinds::handbook::HandbookKind;
use words::reader::Part;
use words::word::Word;

impl<'a> Iterator for Line<'a> {
    type Item = Part<'a>;

    ghost next_gives = { NextWord };

    ghost remaining = { item_count behind };

    fn next(&mut self) -> Option<Part<'a>> {
        self.reader.next_word()
    }
}

impl<'a> Line<'a> {
    // The fault of a word of the line.
    pub(crate) fn fault(&self, part: Part<'_>, why: Why) -> Fault
        ensures { result ≡ fault self.now.first.line part.entry.column why }
    {
        Fault {
            line: self.first.line,
            column: part.column,
            why,
        }
    }

    // The fault of a line that has not its command's count of words.
    pub(crate) fn short(&self) -> Fault
        ensures { result ≡ fault self.now.first.line self.now.first.column why.Miscounted }
    {
        self.fault(self.first, Why::Miscounted)
    }

    // A word that is to be a number.
    pub(crate) fn number(&self, part: Part<'_>) -> Result<u32, Fault>
        ensures { result ≡ number_in self.now.first.line (placed part.entry) }
    {
        let Word::Number(_, number) = Word::from(part.bytes) else {
            return Err(self.fault(part, Why::NotNumber));
        };
        Ok(number)
    }

    // A word that is to be a number, or a dash for none.
    pub(crate) fn label(&self, part: Part<'_>) -> Result<Option<u32>, Fault>
        ensures { result ≡ label_in self.now.first.line (placed part.entry) }
    {
        match Word::from(part.bytes) {
            Word::Dash(_) => Ok(None),
            Word::Number(_, number) => Ok(Some(number)),
            Word::Command(_, _) | Word::Other(_) => Err(self.fault(part, Why::NotNumber)),
        }
    }

    // A word that is to be a category: one letter.
    pub(crate) fn category(&self, part: Part<'_>) -> Result<HandbookCategory, Fault>
        ensures { result ≡ category_in self.now.first.line (placed part.entry) }
    {
        let unknown = self.fault(part, Why::Unknown);
        let [letter] = part.bytes else {
            return Err(unknown);
        };
        HandbookCategory::try_from(char::from(*letter)).map_err(|_| unknown)
    }

    // A word that is to be a kind.
    pub(crate) fn kind(&self, part: Part<'_>) -> Result<HandbookKind, Fault>
        ensures { result ≡ kind_in self.now.first.line (placed part.entry) }
    {
        let unknown = self.fault(part, Why::Unknown);
        HandbookKind::try_from(part.bytes).map_err(|_| unknown)
    }
}
