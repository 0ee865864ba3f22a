ghost use Rattle.std.specs.Prelude.{◌≡◌, Some};
ghost use Rattle.quantity.specs.Afrr.{band_of};
ghost use Rattle.quantity.specs.Texts.{band_text};

use crate::afrr::Band;
use std::fmt;

impl Band {
    /// The band of these tenths up and down, or `None` where one is above 10,000: there is none.
    pub fn of_tenths(up: u16, down: u16) -> Option<Band>
        ensures { result ≡ band_of up down }
    {
        if up > 10000 || down > 10000 {
            return None;
        }
        Some(Band { up, down })
    }

    pub fn up(self) -> u16
        ensures { result ≡ self.up }
    {
        self.up
    }

    pub fn down(self) -> u16
        ensures { result ≡ self.down }
    {
        self.down
    }
}

/// `40/20`: the tenths up and down.
impl fmt::Display for Band {
    ghost output = { λ x. Some (band_text x) };

    fn fmt<W: fmt::Write>(&self, f: &mut fmt::Formatter<W>) -> fmt::Result {
        let up = self.up;
        let down = self.down;
        write!(f, "{up}/{down}")
    }
}
