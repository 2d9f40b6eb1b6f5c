// What is wrong with a line, in the order in which it is asked.
#[derive(Clone, Copy, Debug, PartialEq, Eq)]
pub enum Why {
    // the text has more than 65536 bytes
    TooLong,
    // the first word is no command
    NotCommand,
    // the line has not the command's count of words
    Miscounted,
    // a word is not the number that belongs there
    NotNumber,
    // the category or the kind is not known
    Unknown,
}

// A line that is not read, and where.
#[derive(Clone, Copy, Debug, PartialEq, Eq)]
pub struct Fault {
    pub line: usize,
    pub column: usize,
    pub why: Why,
}
