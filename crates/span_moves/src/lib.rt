#![tactic(auto)]

mod change;
mod span_change;
mod span_move;
pub mod spans;
