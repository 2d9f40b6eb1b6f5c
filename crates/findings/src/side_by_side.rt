use crate::closed::Findings;
use crate::consequences::Consequences;
use crate::unfollowed::NothingFollows;

// Two closed sheets, and what the rule for two says of them.
#[derive(Drop)]
pub struct SideBySide {
    pub first: Findings,
    pub second: Findings,
    pub said: Result<Consequences, NothingFollows>,
}
