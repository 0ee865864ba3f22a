#![tactic(auto)]

pub mod interface;
pub mod list;
pub mod slots;
pub mod stored;
