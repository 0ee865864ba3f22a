ghost use Rattle.std.specs.Prelude.{◌≤◌};

pub mod calls;
pub mod laws;

/// The quantity of FCR: one direction, up, of at most 10,000 tenths.
// Not one array type for both quantities: lent rows are a plain number here and two named ones there, and an array of
// one or two would trade each law's line of arithmetic for a recursion over lists. Nor a checked number of tenths inside both:
// it would take one line of bound from each, and put its own sums and remainders between theirs and the numbers.
#[derive(Clone, Copy, PartialEq, Eq, Debug)]
pub struct Volume {
    tenths: u16,
    ghost bounded: { tenths ≤ 10000 },
}
