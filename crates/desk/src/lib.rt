#![tactic(auto)]

pub mod day_desk;
