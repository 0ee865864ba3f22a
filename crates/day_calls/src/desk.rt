use awards::sheet::Sheet;
use day::stages::{Announcing, Intraday, Reconciling};

/// Where a day stands. A stage that has passed is gone.
#[derive(Drop)]
pub enum Stage {
    Unopened,
    Announcing(Announcing),
    Reconciling(Reconciling),
    Intraday(Intraday),
}

/// One day with its stage, its two books, its requests and its sheet, which no other day uses.
#[derive(Drop)]
pub struct Desk<O, B, L> {
    pub stage: Stage,
    pub obligations: O,
    pub bids: B,
    pub requests: L,
    pub sheet: Sheet,
}
