#![tactic(auto)]

pub mod bureau;
pub mod calls;
pub mod supply;
