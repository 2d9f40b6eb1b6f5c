use comparison::premises::Refused;

// Why the rule for two says nothing of two closed sheets.
#[derive(Clone, Copy)]
pub enum NothingFollows {
    // they do not share category, kind, lot size, division and labels
    NotShared,
    // a list of their errors is not decided
    Undecided(Refused),
}
