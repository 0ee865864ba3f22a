#![tactic(auto)]

pub mod afrr;
pub mod direction;
pub mod fcr;
pub mod interface;
pub mod reading;
pub mod reserve;
pub mod up_down;
