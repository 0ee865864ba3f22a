ghost use Rattle.std.specs.Prelude.{Some};
ghost use Rattle.script.specs.Texts.{service_text, bottom_text, switch_text, setting_text};
ghost use Rattle.script.specs.Reading.{ReadsService, ReadsSwitch};

use crate::malformed::Malformed;
use quantity::direction::Direction;
use std::fmt;
use std::str::FromStr;

/// A service: the quantities of FCR have one direction, those of aFRR two.
#[derive(Clone, Copy, PartialEq, Eq, Debug)]
pub enum Service {
    Fcr,
    Afrr,
}

/// The bottom of a pile of books: full, or sparse with a number of places.
#[derive(Clone, Copy, PartialEq, Eq, Debug)]
pub enum Bottom {
    Full,
    Sparse(u16),
}

/// Whether a pile has a limit layer.
#[derive(Clone, Copy, PartialEq, Eq, Debug)]
pub enum Switch {
    On,
    Off,
}

/// What a script chooses before its first call. A limit may come later too: it binds the books opened after it.
#[derive(Clone, Copy, PartialEq, Eq, Debug)]
pub enum Setting {
    Service(Service),
    Books(Bottom),
    Limits(Switch),
    Limit {
        provider: u8,
        direction: Direction,
        tenths: u32,
    },
}

/// What a line is: blank, a setting, or a call of a book, which is read once the service is known.
#[derive(Clone, Copy, PartialEq, Eq, Debug)]
pub enum Line {
    Blank,
    Setting(Setting),
    Call,
}

impl FromStr for Service {
    type Err = Malformed;

    ghost from_str_gives = { ReadsService };

    fn from_str(word: &str) -> Result<Service, Malformed> {
        match word {
            "fcr" => Ok(Service::Fcr),
            "afrr" => Ok(Service::Afrr),
            _ => Err(Malformed::UnknownService),
        }
    }
}

impl FromStr for Switch {
    type Err = Malformed;

    ghost from_str_gives = { ReadsSwitch };

    fn from_str(word: &str) -> Result<Switch, Malformed> {
        match word {
            "on" => Ok(Switch::On),
            "off" => Ok(Switch::Off),
            _ => Err(Malformed::NotOnOff),
        }
    }
}

impl fmt::Display for Service {
    ghost output = { λ x. Some (service_text x) };

    fn fmt<W: fmt::Write>(&self, f: &mut fmt::Formatter<W>) -> fmt::Result {
        match self {
            Service::Fcr => write!(f, "fcr"),
            Service::Afrr => write!(f, "afrr"),
        }
    }
}

impl fmt::Display for Bottom {
    ghost output = { λ x. Some (bottom_text x) };

    fn fmt<W: fmt::Write>(&self, f: &mut fmt::Formatter<W>) -> fmt::Result {
        match self {
            Bottom::Full => write!(f, "full"),
            Bottom::Sparse(places) => write!(f, "sparse {places}"),
        }
    }
}

impl fmt::Display for Switch {
    ghost output = { λ x. Some (switch_text x) };

    fn fmt<W: fmt::Write>(&self, f: &mut fmt::Formatter<W>) -> fmt::Result {
        match self {
            Switch::On => write!(f, "on"),
            Switch::Off => write!(f, "off"),
        }
    }
}

/// What is answered once the setting is taken.
impl fmt::Display for Setting {
    ghost output = { λ x. Some (setting_text x) };

    fn fmt<W: fmt::Write>(&self, f: &mut fmt::Formatter<W>) -> fmt::Result {
        match self {
            Setting::Service(service) => write!(f, "service {service}"),
            Setting::Books(bottom) => write!(f, "books {bottom}"),
            Setting::Limits(switch) => write!(f, "limits {switch}"),
            Setting::Limit { .. } => write!(f, "limit set"),
        }
    }
}
