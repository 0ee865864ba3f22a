#![tactic(auto)]

pub mod calls;
pub mod desk;
pub mod texts;
