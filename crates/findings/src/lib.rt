#![tactic(auto)]

pub mod answer;
pub mod asked;
pub mod closed;
mod comparing;
pub mod consequences;
mod finding;
pub mod outcome;
pub mod reporting;
pub mod side_by_side;
pub mod unfollowed;
