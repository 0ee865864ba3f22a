#![tactic(auto)]

pub mod announcing;
pub mod awarding;
pub mod gating;
pub mod minutes;
pub mod opening;
pub mod questions;
pub mod stages;
