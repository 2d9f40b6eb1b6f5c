#![tactic(auto)]

pub mod comparing;
pub mod laws;
mod pair;
pub mod premises;
