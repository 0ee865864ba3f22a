//! Runs of calls over any number of days in memory of their own, of either kind of book, with and without limits.

#![tactic(auto)]

#[cfg(test)]
mod bands;
#[cfg(test)]
mod volumes;
#[cfg(test)]
mod words;
