#![tactic(auto)]

mod choice;
mod fault;
mod report;
pub mod session;
