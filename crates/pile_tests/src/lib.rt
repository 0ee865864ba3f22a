//! Runs of piles of books: lent books under limit layers, and scripts over every stored pile.

#![tactic(auto)]

#[cfg(test)]
mod lent;
#[cfg(test)]
mod scripts;
