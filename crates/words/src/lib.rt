#![tactic(auto)]

pub mod lines;
pub mod numbers;
pub mod reader;
pub mod reading;
pub mod sorting;
pub mod word;
