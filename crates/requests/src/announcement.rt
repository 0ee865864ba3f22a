use crate::request::Side;
use refusals::passage::Passage;

/// What a side says of a request: how much passes from whom to whom over which quarters, and when it is said.
#[derive(Clone, Copy, PartialEq, Eq, Debug)]
pub struct Announcement<Q> {
    pub side: Side,
    pub passage: Passage,
    pub quantity: Q,
    pub minute: i32,
}
