#![tactic(auto)]

pub mod deciding;
mod judging;
pub mod measuring;
pub mod outcome;
pub mod rule;
mod saying;
