// A letter that no category has.
#[derive(Clone, Copy, Debug, PartialEq, Eq)]
pub struct UnknownCategory;
