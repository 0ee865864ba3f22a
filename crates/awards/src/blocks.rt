ghost use Rattle.std.specs.Prelude.{◌≡◌, ℕ, ◌+◌, ◌<◌, ◌≤◌, ◌==◌};
ghost use Rattle.awards.specs.Blocks.{starts, first_of_block, end_of_block, last_of_block, count_of_block, block_of, in_block};

/// A block of a day of so many quarters. A number from 6 on is the whole day.
// A number and no enum of the six and the whole: the rules number the blocks 0 to 6, and every number has a meaning, so no call asks anything.
#[derive(Clone, Copy, PartialEq, Eq, Debug)]
pub struct Block {
    pub quarters: u8,
    pub number: u8,
}

impl Block {
    // The quarter at which a block from 0 to 5 starts.
    fn start(self) -> u8
        requires { self.number < 6 }
        ensures { result ≡ starts self.quarters self.number }
    {
        if self.number == 0 {
            return 0;
        }
        self.quarters.saturating_sub(80) + 16 * (self.number - 1)
    }

    /// The first quarter.
    pub fn first(self) -> u8
        ensures { result ≡ first_of_block self.quarters self.number }
    {
        if self.number < 6 { self.start() } else { 0 }
    }

    /// The first quarter after the block.
    pub fn end(self) -> u8
        ensures { result ≡ end_of_block self.quarters self.number }
    {
        if self.number < 6 {
            self.quarters.saturating_sub(80) + 16 * self.number
        } else {
            self.quarters
        }
    }

    /// The last quarter.
    pub fn last(self) -> u8
        ensures value { result ≡ last_of_block self.quarters self.number }
        ensures end { 80 < self.quarters → result + 1 ≡ end_of_block self.quarters self.number }
    {
        self.end().saturating_sub(1)
    }

    /// How many quarters there are from the first to the last.
    pub fn count(self) -> u8
        ensures value { result ≡ count_of_block self.quarters self.number }
        ensures end { 80 < self.quarters → first_of_block self.quarters self.number + result ≡ end_of_block self.quarters self.number }
    {
        self.last() + 1 - self.first()
    }
}

/// The block of a quarter, one of the six for a quarter of the day: the one between whose first quarter and end it is.
pub fn block_of_quarter(quarters: u8, quarter: u8) -> u8
    ensures value { result ≡ block_of quarters quarter }
    ensures six { 80 ≤ quarters → quarter < quarters → result < 6 }
    ensures between { (b : ℕ) → b < 6 → (result == b) ≡ in_block quarters b quarter }
{
    let short = quarters.saturating_sub(80);
    if quarter < short {
        return 0;
    }
    (quarter - short) / 16 + 1
}
