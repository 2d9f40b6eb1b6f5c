ghost use Rattle.std.specs.Prelude.{◌≡◌};
ghost use Rattle.commands.specs.Faults.{account};

use crate::fault::{Fault, Why};

// Four enums are refusals with a number and a letter, each by a definition of its own. No trait over them: no caller takes any of
// the four.
impl Fault {
    // The number of the question that was answered by no.
    pub fn number(&self) -> u32
        ensures { result ≡ (account self.now.why).number }
    {
        match self.why {
            Why::TooLong => 1,
            Why::NotCommand => 2,
            Why::Miscounted => 3,
            Why::NotNumber => 4,
            Why::Unknown => 5,
        }
    }

    // The letter of its layer: T, the text.
    pub fn letter(&self) -> char
        ensures { result ≡ (account self.now.why).letter }
    {
        'T'
    }
}
