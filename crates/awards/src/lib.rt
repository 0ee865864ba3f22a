#![tactic(auto)]

pub mod award;
pub mod awarded;
pub mod blocks;
mod prices;
pub mod sheet;
