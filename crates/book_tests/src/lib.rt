//! Tests of the quantities and of the full book over lent rows.

#![tactic(auto)]

#[cfg(test)]
mod bands;
#[cfg(test)]
mod full_books;
#[cfg(test)]
mod volumes;
