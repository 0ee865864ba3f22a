#![tactic(auto)]

pub mod passage;
pub mod refusal;
pub mod span;
