#![tactic(auto)]

pub mod announcement;
pub mod announcing;
pub mod finding;
pub mod request;
pub mod words;
