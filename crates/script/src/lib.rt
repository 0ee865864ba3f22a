#![tactic(auto)]

pub mod calls;
pub mod malformed;
pub mod perform;
pub mod quantities;
mod reading;
pub mod settings;
pub mod words;
