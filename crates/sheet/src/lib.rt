#![tactic(auto)]

mod accounts;
mod acting;
pub mod call;
pub mod closing;
mod placing;
pub mod record;
pub mod refusal;
mod reporting;
mod settling;
pub mod sheet;
mod starting;
