#![tactic(auto)]

pub mod contest;
pub mod ending;
pub mod entry;
pub mod laws;
pub mod running;
