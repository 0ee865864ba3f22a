use quantity::afrr::Band;
use quantity::fcr::Volume;
use quantity::reading::QuantityFault;
use quantity::reserve::ReserveQuantity;
use std::fmt::Display;
use std::str::FromStr;

/// A quantity as a script writes it, and as it is printed.
pub trait Written: ReserveQuantity + Display + FromStr<Err = QuantityFault> {}

// Two impls: with one for every such type the check covers no caller.
impl Written for Volume {}

impl Written for Band {}
