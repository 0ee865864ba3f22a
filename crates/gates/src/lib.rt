#![tactic(auto)]

pub mod gate;
pub mod passing;
