use words::reader::{Part, Reader};

// The words behind a line's command, and the command's own word, where a fault of the whole line stands.
#[derive(Drop)]
pub(crate) struct Line<'a> {
    pub(crate) reader: Reader<'a>,
    pub(crate) first: Part<'a>,
}
