#![tactic(auto)]

pub mod accounts;
pub mod denial;
pub mod handling;
pub mod laws;
mod lines;
pub mod session;
pub mod telling;
pub mod transcribing;
