#![tactic(auto)]

pub mod kept;
