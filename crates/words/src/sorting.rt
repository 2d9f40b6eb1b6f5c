ghost use Rattle.std.specs.Prelude.{◌≡◌, Some, None, MatchResult};
ghost use Rattle.words.specs.Sorts.{verb_of, Sorted};

use crate::numbers::read_number;
use crate::word::{UnknownVerb, Verb, Word};

impl TryFrom<&[u8]> for Verb {
    type Error = UnknownVerb;

    ghost try_from_gives = { λ word r. MatchResult r (λ verb. verb_of word.now ≡ Some verb) (λ _. verb_of word.now ≡ None) };

    fn try_from(word: &[u8]) -> Result<Self, UnknownVerb> {
        match word {
            b"lot" => Ok(Verb::Lot),
            b"wt" => Ok(Verb::Wt),
            b"fix" => Ok(Verb::Fix),
            b"del" => Ok(Verb::Del),
            b"op" => Ok(Verb::Op),
            b"set" => Ok(Verb::Set),
            b"re" => Ok(Verb::Re),
            b"end" => Ok(Verb::End),
            _ => Err(UnknownVerb),
        }
    }
}

// Which of the four a word is. It is never two of them.
impl<'a> From<&'a [u8]> for Word<'a> {
    ghost from_gives = { Sorted };

    fn from(bytes: &'a [u8]) -> Self {
        if let Ok(verb) = Verb::try_from(bytes) {
            return Word::Command(bytes, verb);
        }
        if let Some(number) = read_number(bytes) {
            return Word::Number(bytes, number);
        }
        match bytes {
            b"-" => Word::Dash(bytes),
            _ => Word::Other(bytes),
        }
    }
}
