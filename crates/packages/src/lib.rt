#![tactic(auto)]

pub mod list;
pub mod package;
mod parts;
pub mod reading;
pub mod records;
