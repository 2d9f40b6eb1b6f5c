// The commands, each by its first word.
#[derive(Clone, Copy, Debug, PartialEq, Eq)]
pub enum Verb {
    Lot,
    Wt,
    Fix,
    Del,
    Op,
    Set,
    Re,
    End,
}

// A word that is no command.
#[derive(Clone, Copy, Debug, PartialEq, Eq)]
pub struct UnknownVerb;

// What a word is, with its own part of the text.
#[derive(Clone, Copy, Debug, PartialEq, Eq)]
pub enum Word<'a> {
    Command(&'a [u8], Verb),
    Number(&'a [u8], u32),
    Dash(&'a [u8]),
    Other(&'a [u8]),
}
