ghost use Rattle.std.specs.Prelude.{◌≡◌, Some};
ghost use Rattle.quantity.specs.Fcr.{volume_of};
ghost use Rattle.quantity.specs.Texts.{volume_text};

use crate::fcr::Volume;
use std::fmt;

impl Volume {
    /// The volume of this many tenths, or `None` above 10,000: there is none.
    // Not `TryFrom`: it answers as `join` does, and that of the band takes two numbers.
    pub fn of_tenths(tenths: u16) -> Option<Volume>
        ensures { result ≡ volume_of tenths }
    {
        if tenths > 10000 {
            return None;
        }
        Some(Volume { tenths })
    }

    pub fn up(self) -> u16
        ensures { result ≡ self.tenths }
    {
        self.tenths
    }
}

/// `100`: the tenths up.
impl fmt::Display for Volume {
    ghost output = { λ x. Some (volume_text x) };

    fn fmt<W: fmt::Write>(&self, f: &mut fmt::Formatter<W>) -> fmt::Result {
        let tenths = self.tenths;
        write!(f, "{tenths}")
    }
}
