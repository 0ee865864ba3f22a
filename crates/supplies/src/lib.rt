#![tactic(auto)]

pub mod books;
pub mod own_memory;
