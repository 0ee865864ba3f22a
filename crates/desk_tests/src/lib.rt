//! Runs of a day, call by call, over lent books of both kinds under a limit layer.

#![tactic(auto)]

#[cfg(test)]
mod days;
