//! Runs of moves over spans of quarters, of volumes and of a signed quantity without directions.

#![tactic(auto)]

#[cfg(test)]
mod balances;
pub mod cents;
#[cfg(test)]
mod passages;
#[cfg(test)]
mod volumes;
