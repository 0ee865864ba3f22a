#![tactic(auto)]

pub mod figures;
