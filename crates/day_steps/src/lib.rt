#![tactic(auto)]

// Each step takes the parts of a desk that it reads or changes, and not the desk: what is not lent to it stays, without a clause.

pub mod gate_calls;
pub mod openings;
pub mod questions;
pub mod words;
