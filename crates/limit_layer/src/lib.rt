#![tactic(auto)]

pub mod layer;
pub mod layer_book;
pub mod table;
