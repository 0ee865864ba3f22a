/// What is awarded: a quantity to a provider in every quarter of a block.
#[derive(Clone, Copy, PartialEq, Eq, Debug)]
pub struct Award<Q, P> {
    pub provider: u8,
    pub block: u8,
    pub quantity: Q,
    pub prices: P,
}

/// An award that is lent its prices.
pub type LentAward<'a, Q> = Award<Q, &'a [u32]>;
