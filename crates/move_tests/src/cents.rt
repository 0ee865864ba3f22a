ghost use Rattle.std.specs.Prelude.{◌≤◌, unsigned_abs};

pub mod calls;
pub mod laws;

/// A signed sum of money without directions: from -1,000,000 to 1,000,000 cents.
#[derive(Clone, Copy, PartialEq, Eq, Debug)]
pub struct Cents {
    cents: i32,
    ghost bounded: { unsigned_abs cents ≤ 1000000 },
}
