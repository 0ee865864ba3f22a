#![tactic(auto)]

pub mod lent;
pub mod row_book;
pub mod rows;
pub mod stored;
