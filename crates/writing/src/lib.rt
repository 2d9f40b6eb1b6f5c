#![tactic(auto)]

pub mod commanding;
mod page;
pub mod refusing;
pub mod reporting;
pub mod unwritten;
mod word;
