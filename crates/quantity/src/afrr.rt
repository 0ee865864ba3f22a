ghost use Rattle.std.specs.Prelude.{◌≤◌};

use crate::up_down::UpDown;

pub mod calls;
pub mod laws;

/// The quantity of aFRR: two directions, up and down, each of at most 10,000 tenths.
// A type of its own beside the volume: see `Volume`.
#[derive(Clone, Copy, PartialEq, Eq, Debug)]
pub struct Band {
    up: u16,
    down: u16,
    ghost upward: { up ≤ 10000 },
    ghost downward: { down ≤ 10000 },
}

/// The row of a band: its tenths, with no bound.
pub type BandRow = UpDown<u16>;
