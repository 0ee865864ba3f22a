/// The two gates of the day before.
#[derive(Clone, Copy, PartialEq, Eq, Debug)]
pub enum Gate {
    First,
    Second,
}
