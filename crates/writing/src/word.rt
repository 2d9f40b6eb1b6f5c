// A word of a line that is written.
#[derive(Clone, Copy)]
pub(crate) enum Word<'a> {
    Text(&'a [u8]),
    Letter(u8),
    Number(u32),
    // a number, or a dash for none
    Label(Option<u32>),
    // a number of up to twenty digits
    Wide(u64),
    Signed(i64),
}
