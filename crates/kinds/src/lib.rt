#![tactic(auto)]

pub mod entry;
pub mod handbook;
pub mod kind;
pub mod label;
mod printed;
pub mod unknown;
pub mod words;
