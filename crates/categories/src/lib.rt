#![tactic(auto)]

pub mod category;
pub mod handbook;
pub mod plan;
mod printed;
pub mod unknown;
