ghost use Rattle.std.specs.Prelude.{◌≡◌};
ghost use Rattle.writing.specs.Unwritten.{account};

// Why nothing is written, in the order in which it is asked.
#[derive(Clone, Copy, Debug, PartialEq, Eq)]
pub enum Unwritten {
    // a number of the command has more than nine digits
    NotNumber,
    // the output has too few bytes
    FewBytes,
}

// Four enums are refusals with a number and a letter, each by a definition of its own. No trait over them: no caller takes any of
// the four.
impl Unwritten {
    // The number of the question that was answered by no.
    pub fn number(&self) -> u32
        ensures { result ≡ (account self.now).number }
    {
        match self {
            Unwritten::NotNumber => 4,
            Unwritten::FewBytes => 23,
        }
    }

    // The letter of its layer: T, the text, or S, the sheet.
    pub fn letter(&self) -> char
        ensures { result ≡ (account self.now).letter }
    {
        match self {
            Unwritten::NotNumber => 'T',
            Unwritten::FewBytes => 'S',
        }
    }
}
