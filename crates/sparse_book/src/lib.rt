#![tactic(auto)]

pub mod lent;
pub mod record;
pub mod record_book;
pub mod records;
pub mod stored;
