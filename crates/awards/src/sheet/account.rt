/// What a provider's awards of a day earn, and in which quarters it is exempt.
#[derive(Clone, Copy, PartialEq, Eq, Debug)]
pub(crate) struct Account {
    pub(crate) earned: u64,
    pub(crate) exempt: [bool; 100],
}
