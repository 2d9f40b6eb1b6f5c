#![tactic(auto)]

pub mod accounts;
pub mod command;
pub mod fault;
mod line;
pub mod parsing;
pub mod taking;
