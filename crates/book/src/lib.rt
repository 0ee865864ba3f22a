#![tactic(auto)]

pub mod answers;
pub mod counting;
pub mod interface;
pub mod range;
