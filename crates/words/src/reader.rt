ghost use Rattle.std.specs.Prelude.{◌+◌, ◌≤◌, length};

// A reader over the bytes of a text, at a line and a column of it, both from 1.
#[derive(Drop)]
pub struct Reader<'a> {
    pub(crate) text: &'a [u8],
    pub(crate) place: usize,
    pub(crate) line: usize,
    pub(crate) column: usize,
    ghost within: { place ≤ length text.now },
    ghost columns: { column ≤ place + 1 },
}

// A word, as that part of the text, and where it begins.
#[derive(Clone, Copy, Debug, PartialEq, Eq)]
pub struct Part<'a> {
    pub line: usize,
    pub column: usize,
    pub bytes: &'a [u8],
}
